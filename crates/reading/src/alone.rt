//! A clause or a list of bindings read by itself, over whatever count of symbols.
// The rows and their count stay two parameters, for the reason given at `read_rule` of `lines`.
ghost use Rattle.std.specs.Prelude.{◌≡◌, ◌≤◌, length, IfOk, OnOk};
ghost use Rattle.logic.specs.Limits.{symbols as most_symbols};
ghost use Rattle.reading.specs.Clauses.{clause_from};
ghost use Rattle.reading.specs.Bindings.{InOrder, bindings_at};
ghost use Rattle.reading.specs.Alone.{after_clause, bindings_after};

use crate::bindings::Bindings;
use crate::cursor::Cursor;
use crate::purpose::Purpose;
use crate::reader::Reader;
use crate::symbols::check_count;
use logic::SymbolRow;
use tokens::Fault;

/// The place behind a clause, and how many words it has.
#[derive(Clone, Copy, Debug, PartialEq, Eq)]
pub struct Extent {
    pub end: usize,
    pub words: usize,
}

/// Reads the clause that is due at `from`: its words go to `out`, and those that find no room there are only counted.
pub fn read_clause(
    line: &[u8],
    rows: &mut [SymbolRow],
    symbols: &mut usize,
    out: &mut [u32],
    purpose: Purpose,
    from: usize,
) -> Result<Extent, Fault>
    ensures is { after_clause purpose result out.new symbols.new rows.new ≡ clause_from line.now purpose from out.old symbols.old rows.old }
    ensures on { IfOk result (λ e. e.words ≤ e.end) }
    ensures counted { OnOk result ((symbols.new ≤ length rows.old) × (symbols.new ≤ most_symbols)) }
{
    check_count(rows, *symbols)?;
    // Written out here and below, for the reason given at `read_rule` of `lines`.
    let mut reader = Reader {
        purpose,
        at: Cursor { line, pos: from },
        count: 0,
        rows,
        symbols: *symbols,
    };
    let words = reader.clause(purpose, out);
    let end = reader.at.pos;
    *symbols = reader.symbols;
    Ok(Extent { end, words: words? })
}

/// Reads the bracketed list of bindings that is due at `from`: the place behind it.
pub fn read_bindings(
    line: &[u8],
    rows: &mut [SymbolRow],
    symbols: &mut usize,
    bindings: &mut Bindings,
    from: usize,
) -> Result<usize, Fault>
    ensures is { bindings_after result bindings.new symbols.new rows.new ≡ bindings_at line.now from symbols.old rows.old }
    ensures ordered { OnOk result (InOrder bindings.new) }
{
    check_count(rows, *symbols)?;
    let mut reader = Reader {
        purpose: Purpose::Binding,
        at: Cursor { line, pos: from },
        count: 0,
        rows,
        symbols: *symbols,
    };
    let read = reader.bindings(bindings);
    let end = reader.at.pos;
    *symbols = reader.symbols;
    read?;
    Ok(end)
}
