//! Whether words are those of some lawful clause.
ghost use Rattle.std.specs.Prelude.{◌≡◌, Decides, MatchOption};
ghost use Rattle.logic.specs.Syntax.{Clause};
ghost use Rattle.logic.specs.Words.{clause_words};
ghost use Rattle.logic.specs.Lawful.{Lawful};
ghost use Rattle.logic.specs.Reads.{Arity, Leaves, Taken, Spells};

use crate::head::{SIDES, without_sign};
use crate::limits::{ARGUMENTS, DEPTH, EQUALITY_WORD, LITERALS, SYMBOL_WORD, SYMBOLS, VARIABLES};
use crate::row::{Kind, SymbolRow};

/// The arity of symbol s, if it is of this kind and lawful.
fn arity_of(rows: &[SymbolRow], s: usize, kind: Kind) -> Option<usize>
    ensures { Arity rows.now s kind result }
{
    if s >= SYMBOLS {
        return None;
    }
    let row = rows.get(s)?;
    let arity = row.arity as usize;
    (row.kind == kind && arity <= ARGUMENTS).then_some(arity)
}

/// What stands behind n lawful terms of depth at most d, if the words begin with such terms.
fn lawful_rest<'a>(words: &'a [u32], rows: &[SymbolRow], n: usize, d: usize) -> Option<&'a [u32]>
    ensures { Leaves rows.now d n words.now result }
{
    let mut rest = words;
    for _ in 0..n {
        if d == 0 {
            return None;
        }
        let (word, others) = rest.split_first()?;
        rest = if *word < VARIABLES {
            others
        } else if *word < SYMBOL_WORD {
            return None;
        } else {
            let arity = arity_of(rows, (*word - SYMBOL_WORD) as usize, Kind::Function)?;
            lawful_rest(others, rows, arity, d - 1)?
        };
    }
    Some(rest)
}

/// How many arguments the word takes as the head of a literal, if it is one.
fn arguments(rows: &[SymbolRow], w: u32) -> Option<usize>
    ensures { Taken rows.now w result }
{
    let head = without_sign(w);
    if head == EQUALITY_WORD {
        return Some(SIDES);
    }
    if head < SYMBOL_WORD {
        return None;
    }
    arity_of(rows, (head - SYMBOL_WORD) as usize, Kind::Predicate)
}

/// `Some` where the words are those of a lawful clause of at most `most` literals.
// An `Option` of nothing and no bool, so that `?` ends it where a part is missing.
fn clause_in(words: &[u32], rows: &[SymbolRow], most: usize) -> Option<()>
    ensures { MatchOption result (Spells rows.now most words.now → ⊥) (λ _. Spells rows.now most words.now) }
{
    let Some((word, rest)) = words.split_first() else {
        return Some(());
    };
    if most == 0 {
        return None;
    }
    let n = arguments(rows, *word)?;
    let others = lawful_rest(rest, rows, n, DEPTH)?;
    clause_in(others, rows, most - 1)
}

/// Whether the words are those of some lawful clause.
pub fn is_clause(words: &[u32], rows: &[SymbolRow]) -> bool
    ensures { Decides result ((c : Clause) × (words.now ≡ clause_words c) × Lawful rows.now c) }
{
    clause_in(words, rows, LITERALS).is_some()
}
