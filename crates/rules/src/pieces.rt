//! Comparing a conclusion piece by piece, so that none is built.
ghost use Rattle.std.specs.Prelude.{◌≡◌, [], ◌∷◌, IsTrue};
ghost use Rattle.std.specs.List.{flat_map};
ghost use Rattle.rules.specs.Pieces.{BeginsWith, Allows};

use bench::RuleFault;
use logic::same;

/// Allows the conclusion where this holds.
pub(crate) fn allow_if(holds: bool) -> Result<(), RuleFault>
    ensures { Allows result (IsTrue holds) }
{
    if holds {
        Ok(())
    } else {
        Err(RuleFault::OtherConclusion)
    }
}

/// The words behind the word with which they begin.
pub(crate) fn behind_word(words: &[u32], word: u32) -> Result<&[u32], RuleFault>
    ensures { BeginsWith words.now (word ∷ []) result }
{
    match words.split_first() {
        Some((first, rest)) if *first == word => Ok(rest),
        _ => Err(RuleFault::OtherConclusion),
    }
}

/// The words behind the piece with which they begin.
pub(crate) fn behind<'a>(words: &'a [u32], piece: &[u32]) -> Result<&'a [u32], RuleFault>
    ensures { BeginsWith words.now piece.now result }
{
    match words.split_at_checked(piece.len()) {
        Some((front, rest)) if same(front, piece) => Ok(rest),
        _ => Err(RuleFault::OtherConclusion),
    }
}

/// Allows a conclusion whose words are the pieces, one after another.
pub(crate) fn conclude(pieces: &[&[u32]], conclusion: &[u32]) -> Result<(), RuleFault>
    ensures { Allows result (conclusion.now ≡ flat_map (λ piece. piece.now) pieces.now) }
{
    let mut rest = conclusion;
    for piece in pieces {
        rest = behind(rest, piece)?;
    }
    allow_if(rest.is_empty())
}
