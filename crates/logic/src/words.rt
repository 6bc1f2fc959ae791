//! Walking over words by counting how many terms are still due.
// Words and rows are two parameters throughout: the rows of a step are the same for all its words, and a struct of both would be made anew for each.
ghost use Rattle.std.specs.Prelude.{◌≡◌, ℕ, ◌+◌, ◌≤◌, List, ◌++◌, length, drop, Decides};
ghost use Rattle.std.specs.Str.{bytes_eq};
ghost use Rattle.logic.specs.declared.row.SymbolRow.{SymbolRow as Row};
ghost use Rattle.logic.specs.Syntax.{Terms, Clause};
ghost use Rattle.logic.specs.Words.{terms_words, clause_words};
ghost use Rattle.logic.specs.Lawful.{count, LawfulTerms, Lawful};
ghost use Rattle.logic.specs.Walks.{arities, passed};

use crate::head::takes;
use crate::row::SymbolRow;

/// Words from a place up to, and without, another.
#[derive(Clone, Copy, PartialEq, Eq)]
pub struct Span {
    pub start: usize,
    pub end: usize,
}

/// How many words n terms or literals take from the front on, or all words where they end before.
// Asks behind each word whether more are due: asked before it, a word takes more jumps, and in most callers more time (measured).
pub(crate) fn words_of(words: &[u32], rows: &[SymbolRow], n: usize) -> usize
    ensures is { result ≡ passed (arities rows.now) n words.now }
    ensures within { result ≤ length words.now }
{
    if n == 0 {
        return 0;
    }
    let mut due = n;
    for (place, word) in words.iter().enumerate() {
        due = (due - 1).saturating_add(takes(rows, *word));
        if due == 0 {
            return place + 1;
        }
    }
    words.len()
}

/// The place behind n terms or literals that begin at `from`, or the end of the words where they end before. Where `from` lies
/// past the end, it is the answer.
pub fn terms_end(words: &[u32], rows: &[SymbolRow], from: usize, n: usize) -> usize
    ensures place { result ≡ from + passed (arities rows.now) n (drop from words.now) }
    ensures within { (from ≤ result) × (from ≤ length words.now → result ≤ length words.now) }
    ensures terms { (ts : Terms) (rest : List ℕ) → LawfulTerms rows.now ts → count ts ≡ n → drop from words.now ≡ terms_words ts ++ rest → result ≡ from + length (terms_words ts) }
    ensures literals { (c : Clause) (rest : List ℕ) → Lawful rows.now c → length c ≡ n → drop from words.now ≡ clause_words c ++ rest → result ≡ from + length (clause_words c) }
{
    match words.get(from..) {
        Some(rest) => from + words_of(rest, rows, n),
        None => from,
    }
}

/// Whether two rows of words are the same; where they are those of clauses, whether the clauses are.
// More than `==` of slices: its contract carries the theorem that clauses with the same words are the same.
pub fn same(x: &[u32], y: &[u32]) -> bool
    ensures is { result ≡ bytes_eq x.now y.now }
    ensures words { Decides result (x.now ≡ y.now) }
    ensures clauses { (rows : List Row) (c d : Clause) → Lawful rows c → Lawful rows d → x.now ≡ clause_words c → y.now ≡ clause_words d → Decides result (c ≡ d) }
{
    x == y
}
