//! The inference rule `propositional`: literals change their order, are repeated, or are merged where they are the same.
ghost use Rattle.std.specs.Prelude.{◌≡◌, refl};
ghost use Rattle.rules.specs.Among.{stands_among, StandsAmong, AllAmong, SameAmong};
ghost use Rattle.rules.specs.Six.{propositional_rule};
ghost use Rattle.rules.specs.Laws.{propositional_keeps};

use crate::pieces::allow_if;
use bench::{Inference, Question, Rule, RuleFault, Shape};
use logic::{Literals, SymbolRow, same};

/// The inference rule `propositional`.
#[derive(Clone, Copy)]
pub struct Propositional;

impl Inference for Propositional {
    ghost means = { propositional_rule };

    ghost sound = { propositional_keeps };
}

/// Whether the literal stands among those of the clause.
fn stands_among(literal: &[u32], clause: &[u32], rows: &[SymbolRow]) -> bool
    ensures is { result ≡ stands_among rows.now literal.now clause.now }
    ensures literal { StandsAmong rows.now literal.now clause.now result }
{
    Literals::of(clause, rows).any(|other| same(literal, other))
}

/// Whether every literal of one clause stands among those of the other.
fn all_among(one: &[u32], other: &[u32], rows: &[SymbolRow]) -> bool
    ensures { AllAmong rows.now one.now other.now result }
{
    Literals::of(one, rows).all(|literal| stands_among(literal, other, rows))
}

/// Whether two clauses have the same literals.
fn same_literals(one: &[u32], other: &[u32], rows: &[SymbolRow]) -> bool
    ensures { SameAmong rows.now one.now other.now result }
{
    all_among(one, other, rows) && all_among(other, one, rows)
}

impl Rule for Propositional {
    const KEYWORD: &'static [u8] = b"propositional";

    const JUSTIFICATION: Shape = Shape {
        premises: 1,
        literals: 0,
        position: false,
        bindings: false,
    };

    ghost JUSTIFICATION = { propositional_rule.shape };

    ghost shaped = { refl };

    fn word(&self) -> &'static [u8] {
        Self::KEYWORD
    }

    fn ask(&self, question: &Question<'_>) -> Result<(), RuleFault> {
        allow_if(same_literals(question.first, question.conclusion, question.rows))
    }
}
