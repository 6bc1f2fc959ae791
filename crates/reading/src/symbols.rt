//! Symbols as their names are met.
ghost use Rattle.std.specs.Prelude.{◌≡◌, ◌<◌, ◌≤◌, length, take, IfSome, IfOk, OnErr};
ghost use Rattle.logic.specs.Directory.{place_of_name};
ghost use Rattle.logic.specs.Limits.{arguments as most_arguments, name_bytes};
ghost use Rattle.reading.specs.States.{count_checked};
ghost use Rattle.reading.specs.Entering.{met, new_row, entered, meet as meet_of, settled, settle as settle_of};

use crate::reader::Reader;
use logic::{ARGUMENTS, Kind, NAME_BYTES, SYMBOLS, SymbolRow, symbol_named};
use tokens::Fault;

/// The arity of a symbol whose first closing bracket is still to come.
// A number and no `Option`: a row may have any arity, and each above 4 counts as open; a type without them would ask more of callers.
const OPEN_ARITY: u8 = 255;

/// Refuses a count of symbols that exceeds their store, of which at most 256 rows are used.
pub fn check_count(rows: &[SymbolRow], symbols: usize) -> Result<(), Fault>
    ensures { result ≡ count_checked symbols rows.now }
{
    if symbols > rows.len() || symbols > SYMBOLS {
        return Err(Fault::Count);
    }
    Ok(())
}

/// The row of a name that is met for the first time; the bytes behind the name are 0, its arity is still to come.
fn new_row(kind: Kind, name: &[u8]) -> SymbolRow
    requires { length name.now ≤ name_bytes }
    ensures { result ≡ new_row name.now kind }
{
    let mut bytes = [0u8; NAME_BYTES];
    let length = name.len();
    bytes[0..length].copy_from_slice(name);
    SymbolRow {
        name: bytes,
        length: length as u8,
        kind,
        arity: OPEN_ARITY,
    }
}

// That a symbol is counted is said in each contract: it relates an answer to the reader, which no invariant of the reader can do.
impl Reader<'_, '_> {
    ghost use Rattle.reading.specs.Readers.{Enters};

    /// The symbol with this name among those counted, or none where none has it.
    fn named(&self, name: &[u8]) -> Option<usize>
        ensures is { result ≡ place_of_name (take self.now.symbols self.now.rows.now) name.now }
        ensures within { IfSome result (λ s. s < self.now.symbols) }
    {
        symbol_named(&self.rows[..self.symbols], name)
    }

    /// Enters the row of a name that no counted symbol has.
    fn enter(&mut self, row: SymbolRow, place: usize) -> Result<usize, Fault>
        ensures is { met result self.new.symbols self.new.rows.now ≡ entered self.old.purpose row place self.old.symbols self.old.rows.now }
        ensures on { IfOk result (λ s. s < self.new.symbols) }
        ensures enters { Enters self.old self.new }
    {
        if !self.purpose.enters() {
            return Err(Fault::Unknown(place));
        }
        let symbol = self.symbols;
        if symbol >= SYMBOLS || symbol >= self.rows.len() {
            return Err(Fault::ManySymbols(place));
        }
        self.rows[symbol] = row;
        self.symbols = symbol + 1;
        Ok(symbol)
    }

    /// The symbol of a name: one of those counted, or a new one.
    pub(crate) fn meet(&mut self, kind: Kind, name: &[u8], place: usize) -> Result<usize, Fault>
        requires { length name.now ≤ name_bytes }
        ensures is { met result self.new.symbols self.new.rows.now ≡ meet_of self.old.purpose kind name.now place self.old.symbols self.old.rows.now }
        ensures on { IfOk result (λ s. s < self.new.symbols) }
        ensures enters { Enters self.old self.new }
    {
        match self.named(name) {
            Some(symbol) => {
                let row = self.rows[symbol];
                if row.kind == kind {
                    Ok(symbol)
                } else {
                    Err(Fault::OtherKind(place))
                }
            }
            None => self.enter(new_row(kind, name), place),
        }
    }

    /// The closing bracket fixes an open arity, or holds the symbol to its own.
    pub(crate) fn settle(&mut self, symbol: usize, given: usize, place: usize) -> Result<(), Fault>
        requires { (symbol < self.old.symbols) × (given ≤ most_arguments) }
        ensures is { settled result self.new.rows.now ≡ settle_of self.old.rows.now symbol given place }
        ensures kept { OnErr result (self.new.rows.now ≡ self.old.rows.now) }
        ensures same { self.new.symbols ≡ self.old.symbols }
        ensures enters { Enters self.old self.new }
    {
        let row = self.rows[symbol];
        if usize::from(row.arity) > ARGUMENTS {
            self.rows[symbol].arity = given as u8;
            return Ok(());
        }
        if usize::from(row.arity) != given {
            return Err(Fault::OtherArity(place));
        }
        Ok(())
    }
}
