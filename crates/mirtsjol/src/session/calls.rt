//! What a session does: lines are read one after another against the symbols of those that read.
ghost use Rattle.std.specs.Prelude.{◌≡◌, ◌++◌, take, IfOk, vec_len, string_bytes, OnOk};
ghost use Rattle.logic.specs.Limits.{symbols as symbol_room};
ghost use Rattle.mirtsjol.specs.Verdicts.{after_answer};
ghost use Rattle.mirtsjol.specs.Sessions.{word_room, judged_in};
ghost use Rattle.mirtsjol.specs.Texts.{told};
ghost use Rattle.mirtsjol.specs.Spelled.{SessionAnswersWhatIsSpelled};

use crate::judge::judge;
use crate::refusal::Refusal;
use crate::session::Session;
use crate::text::add_answer;
use logic::{SYMBOLS, SymbolRow};
use std::alloc::{AllocError, Global};
use std::fmt;

/// How many words the store has room for.
pub const WORDS: usize = 1_048_576;

impl Session {
    /// A session that has met no symbol.
    pub fn new(alloc: Global) -> Result<Session, AllocError>
        ensures { IfOk result (λ s. (s.symbols ≡ 0) × (vec_len s.rows ≡ symbol_room) × (vec_len s.words ≡ word_room)) }
    {
        let rows = vec![in alloc; SymbolRow::default(); SYMBOLS]?;
        let words = vec![in alloc; 0; WORDS]?;
        Ok(Session {
            rows,
            symbols: 0,
            words,
        })
    }

    /// Reads a line: how many words its clause has, which stand first in the store, or why it is refused.
    fn answer(&mut self, line: &[u8]) -> Result<usize, Refusal>
        ensures is { after_answer result self.new.words.items self.new.symbols self.new.rows.items ≡ judged_in self.old line.now }
        ensures room { (vec_len self.new.words ≡ vec_len self.old.words) × (vec_len self.new.rows ≡ vec_len self.old.rows) }
        ensures kept { take self.old.symbols self.new.rows.items ≡ take self.old.symbols self.old.rows.items }
    {
        judge(line, &mut self.rows, &mut self.symbols, &mut self.words)
    }

    /// Reads a line and adds the line that answers it to `text`.
    pub fn tell(&mut self, line: &[u8], text: &mut String) -> fmt::Result
        ensures text { OnOk result (string_bytes text.new ≡ string_bytes text.old ++ told (judged_in self.old line.now).verdict) }
        ensures symbols { self.new.symbols ≡ (judged_in self.old line.now).symbols }
        ensures rows { self.new.rows.items ≡ (judged_in self.old line.now).rows }
        ensures room { (vec_len self.new.words ≡ vec_len self.old.words) × (vec_len self.new.rows ≡ vec_len self.old.rows) }
        ensures kept { take self.old.symbols self.new.rows.items ≡ take self.old.symbols self.old.rows.items }
        ensures spelled { SessionAnswersWhatIsSpelled self.old line.now }
    {
        let answer = self.answer(line);
        add_answer(text, answer, self.words.as_slice())
    }
}
