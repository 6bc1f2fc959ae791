//! The sides of an equality among the words.
ghost use Rattle.std.specs.Prelude.{◌≡◌, ℕ, ◌+◌, ◌<◌, ◌≤◌, ◌⊎◌, List, ◌++◌, length, drop, Decides};
ghost use Rattle.logic.specs.Syntax.{Term};
ghost use Rattle.logic.specs.Words.{equality_word, negation, term_words};
ghost use Rattle.logic.specs.Lawful.{LawfulTerm};
ghost use Rattle.rules.specs.Sides.{Headed, Parted};

use logic::{EQUALITY_WORD, NEGATION, SymbolRow, terms_end};

/// Whether the words begin with the head.
fn is_headed(words: &[u32], head: u32) -> bool
    ensures { Decides result (Headed head words.now) }
{
    words.first() == Some(&head)
}

/// Whether the literal is an equality that is not negated.
pub(crate) fn is_equality(literal: &[u32]) -> bool
    ensures { Decides result (Headed equality_word literal.now) }
{
    is_headed(literal, EQUALITY_WORD)
}

/// Whether the literal is an equality, negated or not.
pub(crate) fn is_equation(literal: &[u32]) -> bool
    ensures { Decides result (Headed equality_word literal.now ⊎ Headed (negation + equality_word) literal.now) }
{
    is_equality(literal) || is_headed(literal, NEGATION + EQUALITY_WORD)
}

/// Where the right side of an equality begins: behind the term that follows the head.
pub(crate) fn right_side(literal: &[u32], rows: &[SymbolRow]) -> usize
    requires { 0 < length literal.now }
    ensures within { (0 < result) × (result ≤ length literal.now) }
    ensures sides { (s : Term) (rest : List ℕ) → LawfulTerm rows.now s → drop 1 literal.now ≡ term_words s ++ rest → Parted literal.now result (term_words s) rest }
{
    terms_end(literal, rows, 1, 1)
}
