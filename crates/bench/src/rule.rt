//! The interface of an inference rule.
ghost use Rattle.std.specs.Prelude.{◌≡◌};
ghost use Rattle.bench.specs.Faults.{answered};
ghost use Rattle.bench.specs.Meanings.{Asked, Meaning, Sound};
ghost use Rattle.bench.specs.Questions.{Shows};
ghost use Rattle.lines.specs.declared.shape.Shape.{Shape};

use crate::fault::RuleFault;
use crate::question::Question;
use lines::Shape;

/// What an inference rule means, and that it is sound.
pub trait Inference {
    ghost means: { Meaning };

    ghost sound: { Sound means };
}

/// An inference rule: constants say how its justification is read, `ask` whether it allows a conclusion.
pub trait Rule: Inference {
    // Each rule gives these, the ghost twin of the second, and `word`: they are what is its own, and no default could know it.
    const KEYWORD: &'static [u8];

    const JUSTIFICATION: Shape;

    ghost JUSTIFICATION: { Shape };

    /// What a justification has behind the keyword.
    final fn shape(&self) -> Shape
        ensures { result ≡ Self.Inference.means.shape }
    {
        Self::JUSTIFICATION
    }

    /// The keyword. Each impl gives its constant, since a proof cannot name one that is a reference: the address is not known.
    fn word(&self) -> &'static [u8]
        ensures { result.now ≡ Self.Inference.means.keyword };

    /// Whether the rule allows the conclusion: where words are those of lawful clauses and terms, the answer is the one that the rule's meaning
    /// gives to these.
    fn ask(&self, question: &Question<'_>) -> Result<(), RuleFault>
        ensures means { (s : Asked) → Shows s question.now → answered result ≡ Self.Inference.means.answers s };

    ghost shaped: { JUSTIFICATION ≡ Self.Inference.means.shape };
}
