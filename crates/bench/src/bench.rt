//! The bench: a row of inference rules, of which the first with the keyword is used.
ghost use Rattle.std.specs.Prelude.{◌≡◌, ℕ, List, [], ◌∷◌};
ghost use Rattle.bench.specs.Faults.{answered};
ghost use Rattle.bench.specs.Meanings.{Asked, Meaning};
ghost use Rattle.bench.specs.Rows as rows;
ghost use Rattle.bench.specs.Rows.{row_answer, KeepsTheLaw};
ghost use Rattle.bench.specs.Questions.{Shows};
ghost use Rattle.std.proofs.Common.{rules};
ghost use Rattle.bench.specs.Kept.{keeps_more};

use crate::fault::RuleFault;
use crate::question::Question;
use crate::rule::Rule;
use lines::{Shape, Shapes};

/// A row of inference rules; the shape of a keyword is that of the first rule that has it.
pub trait Bench: Shapes {
    ghost row: { List Meaning };

    /// Whether the first rule with the keyword allows the conclusion.
    fn ask(&self, keyword: &[u8], question: &Question<'_>) -> Result<(), RuleFault>
        ensures { (s : Asked) → Shows s question.now → answered result ≡ row_answer row keyword.now s };

    ghost shaped: { (bench : Self) (keyword : List ℕ) → Self.shapes bench keyword ≡ rows.shapes row keyword };

    ghost lawful: { KeepsTheLaw row };
}

/// The bench without rules.
#[derive(Clone, Copy)]
pub struct Empty;

impl Shapes for Empty {
    ghost shapes = { λ bench keyword. rows.shapes [] keyword };

    fn shape(&self, keyword: &[u8]) -> Option<Shape> {
        None
    }
}

impl Bench for Empty {
    ghost row = { [] };

    ghost shaped = { Prim.search rules };

    ghost lawful = { Prim.search rules };

    fn ask(&self, keyword: &[u8], question: &Question<'_>) -> Result<(), RuleFault> {
        Err(RuleFault::NoRule)
    }
}

/// A rule in front of a bench.
#[derive(Clone, Copy)]
pub struct Row<R, B>(pub R, pub B);

impl<R: Rule, B: Bench> Shapes for Row<R, B> {
    ghost shapes = { λ bench keyword. rows.shapes (R.Inference.means ∷ B.Bench.row) keyword };

    fn shape(&self, keyword: &[u8]) -> Option<Shape> {
        if self.0.word() == keyword {
            Some(self.0.shape())
        } else {
            self.1.shape(keyword)
        }
    }
}

impl<R: Rule, B: Bench> Bench for Row<R, B> {
    ghost row = { R.Inference.means ∷ B.Bench.row };

    ghost shaped = { Prim.search rules };

    ghost lawful = { keeps_more R.Inference.means B.Bench.row R.Inference.sound B.Bench.lawful };

    fn ask(&self, keyword: &[u8], question: &Question<'_>) -> Result<(), RuleFault> {
        if self.0.word() == keyword {
            self.0.ask(question)
        } else {
            self.1.ask(keyword, question)
        }
    }
}

/// States the law of the bench: whatever the first rule with a keyword allows, from as many premises as it takes, is true in every structure in
/// which these premises are.
pub fn the_bench_keeps_its_law<B: Bench>()
    ensures { KeepsTheLaw B.Bench.row }
{}

/// States that a bench reads the justifications of each keyword as the first rule of its row with this keyword says.
pub fn the_bench_gives_its_shapes<B: Bench>()
    ensures { (bench : B) (keyword : List ℕ) → B.Shapes.shapes bench keyword ≡ rows.shapes B.Bench.row keyword }
{}
