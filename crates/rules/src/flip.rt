//! The inference rule `flip`: the sides of an equality are exchanged.
ghost use Rattle.std.specs.Prelude.{refl};
ghost use Rattle.rules.specs.Six.{flip_rule};
ghost use Rattle.rules.specs.Laws.{flip_keeps};

use crate::literal::{Parts, numbered};
use crate::pieces::conclude;
use crate::sides::{is_equation, right_side};
use bench::{Inference, Question, Rule, RuleFault, Shape};

/// The inference rule `flip`.
#[derive(Clone, Copy)]
pub struct Flip;

impl Inference for Flip {
    ghost means = { flip_rule };

    ghost sound = { flip_keeps };
}

impl Rule for Flip {
    const KEYWORD: &'static [u8] = b"flip";

    const JUSTIFICATION: Shape = Shape {
        premises: 1,
        literals: 1,
        position: false,
        bindings: false,
    };

    ghost JUSTIFICATION = { flip_rule.shape };

    ghost shaped = { refl };

    fn word(&self) -> &'static [u8] {
        Self::KEYWORD
    }

    fn ask(&self, question: &Question<'_>) -> Result<(), RuleFault> {
        let Parts {
            before,
            literal,
            behind,
        } = numbered(question.first, question.rows, question.literals[0])?;
        if !is_equation(literal) {
            return Err(RuleFault::NoEquality);
        }
        let right = right_side(literal, question.rows);
        let head = &literal[..1];
        let pieces = [before, head, &literal[right..], &literal[1..right], behind];
        conclude(&pieces, question.conclusion)
    }
}
