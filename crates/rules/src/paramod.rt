//! The inference rule `paramod`: one occurrence of the left side of an equality is replaced by its right side.
ghost use Rattle.std.specs.Prelude.{refl};
ghost use Rattle.rules.specs.Six.{paramod_rule};
ghost use Rattle.rules.specs.Laws.{paramod_keeps};

use crate::literal::numbered;
use crate::pieces::conclude;
use crate::position::term_span;
use crate::sides::{is_equality, right_side};
use bench::{Inference, Question, Rule, RuleFault, Shape};
use logic::{Span, same};

/// The inference rule `paramod`.
#[derive(Clone, Copy)]
pub struct Paramod;

impl Inference for Paramod {
    ghost means = { paramod_rule };

    ghost sound = { paramod_keeps };
}

impl Rule for Paramod {
    const KEYWORD: &'static [u8] = b"paramod";

    const JUSTIFICATION: Shape = Shape {
        premises: 2,
        literals: 2,
        position: true,
        bindings: false,
    };

    ghost JUSTIFICATION = { paramod_rule.shape };

    ghost shaped = { refl };

    fn word(&self) -> &'static [u8] {
        Self::KEYWORD
    }

    fn ask(&self, question: &Question<'_>) -> Result<(), RuleFault> {
        let rows = question.rows;
        let second = question.second;
        let from = numbered(question.first, rows, question.literals[0])?;
        let into = numbered(second, rows, question.literals[1])?;
        let equality = from.literal;
        if !is_equality(equality) {
            return Err(RuleFault::NoEquality);
        }
        let found = term_span(second, rows, into.before.len(), question.position);
        let Span { start, end } = found.ok_or(RuleFault::NoTerm)?;
        let right = right_side(equality, rows);
        if !same(&second[start..end], &equality[1..right]) {
            return Err(RuleFault::OtherTerm);
        }
        let pieces = [
            from.before,
            from.behind,
            &second[..start],
            &equality[right..],
            &second[end..],
        ];
        conclude(&pieces, question.conclusion)
    }
}
