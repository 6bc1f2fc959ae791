//! Answers as text.
ghost use Rattle.std.specs.Prelude.{◌≡◌, ◌++◌, take, string_bytes, OnOk, Some};
ghost use Rattle.mirtsjol.specs.Verdicts.{verdict};
ghost use Rattle.mirtsjol.specs.Texts.{words_text, told};

use crate::refusal::Refusal;
use std::fmt;

/// The words of a clause, as text.
#[derive(Clone, Copy)]
struct Words<'a>(&'a [u32]);

impl fmt::Display for Words<'_> {
    ghost output = { λ words. Some (words_text words.0.now) };

    fn fmt<W: fmt::Write>(&self, f: &mut fmt::Formatter<W>) -> fmt::Result {
        write!(f, "words")?;
        for word in self.0 {
            write!(f, " {word}")?;
        }
        Ok(())
    }
}

/// The first `count` words, or all where there are no more.
fn first(words: &[u32], count: usize) -> &[u32]
    ensures { result.now ≡ take count words.now }
{
    &words[..count.min(words.len())]
}

/// Adds the line of an answer whose words stand first in the store.
pub fn add_answer(text: &mut String, answer: Result<usize, Refusal>, store: &[u32]) -> fmt::Result
    ensures { OnOk result (string_bytes text.new ≡ string_bytes text.old ++ told (verdict answer store.now)) }
{
    match answer {
        Ok(count) => writeln!(text, "{}", Words(first(store, count)))?,
        Err(refusal) => writeln!(text, "{refusal}")?,
    }
    Ok(())
}
