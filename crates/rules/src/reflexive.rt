//! The inference rule `reflexive`: an equality with the same term on both sides.
ghost use Rattle.std.specs.Prelude.{◌≡◌, Decides, refl};
ghost use Rattle.logic.specs.Syntax.{Clause};
ghost use Rattle.logic.specs.Words.{clause_words};
ghost use Rattle.logic.specs.Lawful.{Lawful};
ghost use Rattle.inference.specs.Conclusions.{Reflects};
ghost use Rattle.rules.specs.Six.{reflexive_rule};
ghost use Rattle.rules.specs.Laws.{reflexive_keeps};

use crate::pieces::allow_if;
use crate::sides::{is_equality, right_side};
use bench::{Inference, Question, Rule, RuleFault, Shape};
use logic::{SymbolRow, same};

/// The inference rule `reflexive`.
#[derive(Clone, Copy)]
pub struct Reflexive;

impl Inference for Reflexive {
    ghost means = { reflexive_rule };

    ghost sound = { reflexive_keeps };
}

/// Whether the words are those of one equality with the same term on both sides.
fn is_reflexive(words: &[u32], rows: &[SymbolRow]) -> bool
    ensures { (c : Clause) → Lawful rows.now c → words.now ≡ clause_words c → Decides result (Reflects c) }
{
    if !is_equality(words) {
        return false;
    }
    let right = right_side(words, rows);
    same(&words[1..right], &words[right..])
}

impl Rule for Reflexive {
    const KEYWORD: &'static [u8] = b"reflexive";

    const JUSTIFICATION: Shape = Shape {
        premises: 0,
        literals: 0,
        position: false,
        bindings: false,
    };

    ghost JUSTIFICATION = { reflexive_rule.shape };

    ghost shaped = { refl };

    fn word(&self) -> &'static [u8] {
        Self::KEYWORD
    }

    fn ask(&self, question: &Question<'_>) -> Result<(), RuleFault> {
        allow_if(is_reflexive(question.conclusion, question.rows))
    }
}
