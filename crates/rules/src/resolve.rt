//! The inference rule `resolve`: two literals with the same atom and opposite signs are left out, and what is left is joined.
ghost use Rattle.std.specs.Prelude.{◌≡◌, ◌+◌, ◌⊎◌, List, Decides, refl};
ghost use Rattle.logic.specs.declared.row.SymbolRow.{SymbolRow as Symbols};
ghost use Rattle.logic.specs.Syntax.{Literal};
ghost use Rattle.logic.specs.Words.{negation, literal_words};
ghost use Rattle.logic.specs.Lawful.{LawfulAtom};
ghost use Rattle.inference.specs.Conclusions.{Opposed};
ghost use Rattle.rules.specs.Six.{resolve_rule};
ghost use Rattle.rules.specs.Laws.{resolve_keeps};

use crate::literal::numbered;
use crate::pieces::conclude;
use bench::{Inference, Question, Rule, RuleFault, Shape};
use logic::{NEGATION, same};

/// The inference rule `resolve`.
#[derive(Clone, Copy)]
pub struct Resolve;

impl Inference for Resolve {
    ghost means = { resolve_rule };

    ghost sound = { resolve_keeps };
}

/// Whether two heads differ by the mark of negation alone.
fn signs_differ(x: u32, y: u32) -> bool
    ensures { Decides result ((x + negation ≡ y) ⊎ (y + negation ≡ x)) }
{
    x.abs_diff(y) == NEGATION
}

/// Whether two literals have the same atom and opposite signs.
fn opposed(x: &[u32], y: &[u32]) -> bool
    ensures { (rows : List Symbols) (l m : Literal) → LawfulAtom rows l.atom → LawfulAtom rows m.atom → x.now ≡ literal_words l → y.now ≡ literal_words m → Decides result (Opposed l m) }
{
    match (x.split_first(), y.split_first()) {
        (Some((head, xs)), Some((other, ys))) => signs_differ(*head, *other) && same(xs, ys),
        _ => false,
    }
}

impl Rule for Resolve {
    const KEYWORD: &'static [u8] = b"resolve";

    const JUSTIFICATION: Shape = Shape {
        premises: 2,
        literals: 2,
        position: false,
        bindings: false,
    };

    ghost JUSTIFICATION = { resolve_rule.shape };

    ghost shaped = { refl };

    fn word(&self) -> &'static [u8] {
        Self::KEYWORD
    }

    fn ask(&self, question: &Question<'_>) -> Result<(), RuleFault> {
        let rows = question.rows;
        let one = numbered(question.first, rows, question.literals[0])?;
        let other = numbered(question.second, rows, question.literals[1])?;
        if !opposed(one.literal, other.literal) {
            return Err(RuleFault::NotOpposed);
        }
        let pieces = [one.before, one.behind, other.before, other.behind];
        conclude(&pieces, question.conclusion)
    }
}
