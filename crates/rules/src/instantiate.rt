//! The inference rule `instantiate`: each bound variable is replaced by its term, all at once.
ghost use Rattle.std.specs.Prelude.{◌≡◌, ℕ, List, refl};
ghost use Rattle.std.specs.List.{flat_map};
ghost use Rattle.rules.specs.Images.{ReplacesWords};
ghost use Rattle.rules.specs.Pieces.{BeginsWith, Allows};
ghost use Rattle.rules.specs.Six.{instantiate_rule};
ghost use Rattle.rules.specs.Laws.{instantiate_keeps};

use crate::bound::{binding_of, bound_twice, bound_variables, bound_words};
use crate::pieces::{allow_if, behind, behind_word};
use bench::{Inference, Question, Rule, RuleFault, Shape};
use reading::Bindings;

/// The inference rule `instantiate`.
#[derive(Clone, Copy)]
pub struct Instantiate;

impl Inference for Instantiate {
    ghost means = { instantiate_rule };

    ghost sound = { instantiate_keeps };
}

/// The words behind what a word of the premise becomes, with which they begin: the words of its term where it is a variable that is bound, and
/// else itself.
fn behind_image<'a>(
    words: &'a [u32],
    word: u32,
    bindings: &Bindings,
) -> Result<&'a [u32], RuleFault>
    ensures { (σ : ℕ → List ℕ) → ReplacesWords bindings.now σ → BeginsWith words.now (σ word) result }
{
    match binding_of(bound_variables(bindings), word) {
        Some(k) => behind(words, bound_words(bindings, k)),
        None => behind_word(words, word),
    }
}

// A loop of its own and no call of `conclude`, which takes a slice of pieces: nothing is allocated to hold one for each word.
/// Allows a conclusion whose words are what those of the premise become, one after another.
fn conclude_instance(
    premise: &[u32],
    bindings: &Bindings,
    conclusion: &[u32],
) -> Result<(), RuleFault>
    ensures { (σ : ℕ → List ℕ) → ReplacesWords bindings.now σ → Allows result (conclusion.now ≡ flat_map σ premise.now) }
{
    let mut rest = conclusion;
    for word in premise {
        rest = behind_image(rest, *word, bindings)?;
    }
    allow_if(rest.is_empty())
}

impl Rule for Instantiate {
    const KEYWORD: &'static [u8] = b"instantiate";

    const JUSTIFICATION: Shape = Shape {
        premises: 1,
        literals: 0,
        position: false,
        bindings: true,
    };

    ghost JUSTIFICATION = { instantiate_rule.shape };

    ghost shaped = { refl };

    fn word(&self) -> &'static [u8] {
        Self::KEYWORD
    }

    fn ask(&self, question: &Question<'_>) -> Result<(), RuleFault> {
        if bound_twice(bound_variables(question.bindings)) {
            return Err(RuleFault::BoundTwice);
        }
        conclude_instance(question.first, question.bindings, question.conclusion)
    }
}
