//! The literal of a premise that a step numbers.
ghost use Rattle.std.specs.Prelude.{◌≡◌, ◌<◌, ◌++◌, length, IfOk};
ghost use Rattle.logic.specs.Syntax.{Clause};
ghost use Rattle.logic.specs.Words.{clause_words};
ghost use Rattle.logic.specs.Lawful.{Lawful};
ghost use Rattle.rules.specs.Numbered.{NumberedAt};

use bench::RuleFault;
use logic::{Span, SymbolRow, literal_span};

/// The words of a premise in three parts: those before, of and behind one of its literals.
#[derive(Clone, Copy)]
pub(crate) struct Parts<'a> {
    pub(crate) before: &'a [u32],
    pub(crate) literal: &'a [u32],
    pub(crate) behind: &'a [u32],
}

/// The words of a premise, parted around the literal with the number.
pub(crate) fn numbered<'a>(
    words: &'a [u32],
    rows: &[SymbolRow],
    number: u32,
) -> Result<Parts<'a>, RuleFault>
    ensures whole { IfOk result (λ p. words.now ≡ p.before.now ++ (p.literal.now ++ p.behind.now)) }
    ensures filled { IfOk result (λ p. 0 < length p.literal.now) }
    ensures literal { (c : Clause) → Lawful rows.now c → words.now ≡ clause_words c → NumberedAt c number result }
{
    let found = literal_span(words, rows, number as usize);
    let Span { start, end } = found.ok_or(RuleFault::NoLiteral)?;
    Ok(Parts {
        before: &words[..start],
        literal: &words[start..end],
        behind: &words[end..],
    })
}
