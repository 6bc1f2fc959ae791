//! The literals of words, one after another.
ghost use Rattle.std.specs.Prelude.{◌≡◌, ◌<◌, ◌≤◌, length, map, IfSome};
ghost use Rattle.std.specs.Iterator.{YieldsFirstRef, item_count};
ghost use Rattle.std.specs.List.{All, concat};
ghost use Rattle.logic.specs.Syntax.{Clause};
ghost use Rattle.logic.specs.Words.{literal_words, clause_words};
ghost use Rattle.logic.specs.Lawful.{Lawful};
ghost use Rattle.logic.specs.Walks.{arities, heads, literals_from};
ghost use Rattle.logic.specs.Literals.{literals_left, span_of, LiteralAt};

use crate::row::SymbolRow;
use crate::words::{Span, terms_end, words_of};

/// The literals that are still to come in some words, each with its own words.
#[derive(Drop)]
pub struct Literals<'a> {
    words: &'a [u32],
    rows: &'a [SymbolRow],
}

impl<'a> Literals<'a> {
    /// The literals of the words: each has words, and all of them together are the words. Where these are those of a lawful
    /// clause, the literals are those of the clause.
    pub fn of(words: &'a [u32], rows: &'a [SymbolRow]) -> Self
        ensures are { literals_left result ≡ literals_from (arities rows.now) 0 words.now }
        ensures filled { All (λ l. 0 < length l) (literals_left result) }
        ensures whole { concat (literals_left result) ≡ words.now }
        ensures clause { (c : Clause) → Lawful rows.now c → words.now ≡ clause_words c → literals_left result ≡ map literal_words c }
    {
        Literals { words, rows }
    }
}

impl<'a> Iterator for Literals<'a> {
    type Item = &'a [u32];

    ghost next_gives = { YieldsFirstRef literals_left };

    ghost remaining = { item_count literals_left };

    fn next(&mut self) -> Option<&'a [u32]> {
        if self.words.is_empty() {
            return None;
        }
        let end = words_of(self.words, self.rows, 1);
        let (literal, others) = self.words.split_at(end);
        self.words = others;
        Some(literal)
    }
}

/// How many literals begin in the words.
pub fn literal_count(words: &[u32], rows: &[SymbolRow]) -> usize
    ensures count { result ≡ heads (arities rows.now) 0 words.now }
    ensures literals { (c : Clause) → Lawful rows.now c → words.now ≡ clause_words c → result ≡ length c }
{
    Literals::of(words, rows).count()
}

/// Where literal a, counted from 1, lies in the words, if there are so many.
pub fn literal_span(words: &[u32], rows: &[SymbolRow], a: usize) -> Option<Span>
    ensures is { result ≡ span_of (arities rows.now) words.now a }
    ensures within { IfSome result (λ s. (s.start < s.end) × (s.end ≤ length words.now)) }
    ensures literal { (c : Clause) → Lawful rows.now c → words.now ≡ clause_words c → LiteralAt c a result }
{
    let before = a.checked_sub(1)?;
    let start = terms_end(words, rows, 0, before);
    if start < words.len() {
        let end = terms_end(words, rows, start, 1);
        Some(Span { start, end })
    } else {
        None
    }
}
