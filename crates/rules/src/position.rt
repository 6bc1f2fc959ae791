//! Following a position among the words of a literal.
ghost use Rattle.std.specs.Prelude.{◌≡◌, ℕ, ◌≤◌, List, ◌++◌, length, drop, IfSome};
ghost use Rattle.logic.specs.Syntax.{Literal};
ghost use Rattle.logic.specs.Words.{literal_words};
ghost use Rattle.logic.specs.Lawful.{LawfulAtom};
ghost use Rattle.logic.specs.Walks.{arities};
ghost use Rattle.rules.specs.Places.{numbers, stepped, reached, from_place, Led};

use logic::{Span, SymbolRow, takes, terms_end};

/// The number of the first argument.
const FIRST: usize = 1;

/// Whether k is the number of one of n arguments.
fn is_number(k: usize, n: usize) -> bool
    ensures { result ≡ numbers k n }
{
    (FIRST..=n).contains(&k)
}

/// Where argument k of the term or literal at the place begins, if it has so many.
fn argument(words: &[u32], rows: &[SymbolRow], place: usize, k: usize) -> Option<usize>
    ensures inside { IfSome result (λ x. x ≤ length words.now) }
    ensures leads { from_place result words.now ≡ stepped (arities rows.now) (drop place words.now) k }
{
    let head = *words.get(place)?;
    if is_number(k, takes(rows, head)) {
        Some(terms_end(words, rows, place + 1, k - FIRST))
    } else {
        None
    }
}

/// Where the term begins to which the position leads from the term or literal at `from`, if it leads to one.
fn term_place(words: &[u32], rows: &[SymbolRow], from: usize, position: &[u32]) -> Option<usize>
    requires { from ≤ length words.now }
    ensures inside { IfSome result (λ x. x ≤ length words.now) }
    ensures leads { from_place result words.now ≡ reached (arities rows.now) (drop from words.now) position.now }
{
    let mut place = from;
    for k in position {
        place = argument(words, rows, place, *k as usize)?;
    }
    Some(place)
}

/// Where the term lies to which the position leads in the literal at `from`, if it leads to one; the empty position leads to
/// the literal's atom, which is no term.
pub(crate) fn term_span(
    words: &[u32],
    rows: &[SymbolRow],
    from: usize,
    position: &[u32],
) -> Option<Span>
    requires { from ≤ length words.now }
    ensures within { IfSome result (λ s. (s.start ≤ s.end) × (s.end ≤ length words.now)) }
    ensures leads { (l : Literal) (rest : List ℕ) → LawfulAtom rows.now l.atom → drop from words.now ≡ literal_words l ++ rest → Led rows.now l position.now words.now from rest result }
{
    if position.is_empty() {
        return None;
    }
    let start = term_place(words, rows, from, position)?;
    let end = terms_end(words, rows, start, 1);
    Some(Span { start, end })
}
