//! Where the reading of words stands.
ghost use Rattle.std.specs.Prelude.{◌≡◌, ◌<◌, ◌≤◌, length, IfOk, Ok, slice_set};
ghost use Rattle.logic.specs.Limits.{symbols as most_symbols};
ghost use Rattle.reading.specs.Entering.{room_for_word, headed, head as head_of};

use crate::cursor::Cursor;
use crate::purpose::Purpose;
use logic::{Kind, SymbolRow};
use tokens::Fault;

/// What is read, the place in the line, how many words there are so far, and the symbols: how many are counted, and the store that their
/// rows lie in.
// The store of words is a parameter and no field: a step line has two, one for its clause and one for its bindings.
#[derive(Drop)]
pub struct Reader<'a, 's> {
    pub purpose: Purpose,
    pub at: Cursor<'a>,
    pub count: usize,
    pub rows: &'s mut [SymbolRow],
    pub symbols: usize,
    pub ghost passed: { count ≤ at.pos },
    pub ghost within: { symbols ≤ length rows.now },
    pub ghost few: { symbols ≤ most_symbols },
}

/// A symbol, and the place of its name.
#[derive(Clone, Copy)]
pub(crate) struct Head {
    pub symbol: usize,
    pub place: usize,
}

/// Writes a word, if it has room.
fn put(out: &mut [u32], at: usize, word: u32)
    ensures { out.new ≡ slice_set out.old at word }
{
    if at < out.len() {
        out[at] = word;
    }
}

impl Reader<'_, '_> {
    ghost use Rattle.reading.specs.States.{written};
    ghost use Rattle.reading.specs.Readers.{seen, Goes};

    /// One word more, which is written if it has room.
    pub(crate) fn write(&mut self, out: &mut [u32], word: u32)
        requires { self.old.count < self.old.at.pos }
        ensures is { seen self.new out.new ≡ written (seen self.old out.old) self.old.at.pos word }
        ensures goes { Goes self.old self.new }
    {
        // The place is read here, so that a count below it is known to have room for one more.
        prove!(self.count < self.at.pos);
        put(out, self.count, word);
        self.count += 1;
    }

    /// Refuses a word for which there is no room.
    fn room_for_word(&self, place: usize) -> Result<(), Fault>
        ensures { result ≡ room_for_word self.now.purpose self.now.count place (Ok tt) }
    {
        if self.purpose.full(self.count) {
            return Err(Fault::ManyWords(place));
        }
        Ok(())
    }

    /// The symbol that is due.
    pub(crate) fn head(&mut self, kind: Kind) -> Result<Head, Fault>
        ensures is { headed result self.new.at.pos self.new.symbols self.new.rows.now ≡ head_of self.old.at.line.now kind self.old.purpose self.old.at.pos self.old.count self.old.symbols self.old.rows.now }
        ensures on { IfOk result (λ h. (h.symbol < self.new.symbols) × (self.old.at.pos < self.new.at.pos)) }
        ensures count { self.new.count ≡ self.old.count }
        ensures goes { Goes self.old self.new }
    {
        let lexeme = self.at.next()?;
        let name = lexeme.symbol_name()?;
        self.room_for_word(lexeme.place)?;
        let symbol = self.meet(kind, name, lexeme.place)?;
        Ok(Head {
            symbol,
            place: lexeme.place,
        })
    }
}
