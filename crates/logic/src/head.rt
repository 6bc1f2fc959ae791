//! How many arguments a word takes.
ghost use Rattle.std.specs.Prelude.{◌≡◌};
ghost use Rattle.logic.specs.Walks.{arities, bare, word_arity};

use crate::limits::{EQUALITY_WORD, NEGATION, SYMBOL_WORD};
use crate::row::SymbolRow;

/// How many sides an equation has.
pub(crate) const SIDES: usize = 2;

/// A word without the mark of negation.
pub(crate) fn without_sign(word: u32) -> u32
    ensures { result ≡ bare word }
{
    if word < NEGATION {
        word
    } else {
        word - NEGATION
    }
}

/// The arity of symbol s, or 0 where there is no row for it.
fn arity_at(rows: &[SymbolRow], s: usize) -> usize
    ensures { result ≡ arities rows.now s }
{
    rows.get(s).map_or(0, |row| row.arity as usize)
}

/// How many arguments a word takes: none for a variable, two for equality, and for a symbol as many as its row says.
pub fn takes(rows: &[SymbolRow], word: u32) -> usize
    ensures { result ≡ word_arity (arities rows.now) word }
{
    let head = without_sign(word);
    if head < SYMBOL_WORD {
        0
    } else if head == EQUALITY_WORD {
        SIDES
    } else {
        arity_at(rows, (head - SYMBOL_WORD) as usize)
    }
}
