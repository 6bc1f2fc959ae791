//! The answer to a line.
ghost use Rattle.std.specs.Prelude.{◌≡◌};
ghost use Rattle.mirtsjol.specs.Keeping.{KeepsSymbols};
ghost use Rattle.mirtsjol.specs.Verdicts.{line_judged, after_answer, put_back};

use crate::refusal::Refusal;
use lines::read_rule;
use logic::SymbolRow;

// The rows and their count stay two parameters here and in `judge`, as in `read_rule`, which they are handed to.
/// Reads a rule line whose words find room: how many they are, first in the store.
#[tactic(auto, using(crate::proofs::Kept::rule_fixed, crate::proofs::Kept::still_fixed))]
fn read(
    line: &[u8],
    rows: &mut [SymbolRow],
    symbols: &mut usize,
    words: &mut [u32],
) -> Result<usize, Refusal>
    ensures is { after_answer result words.new (put_back result symbols.old symbols.new) rows.new ≡ line_judged line.now words.old symbols.old rows.old }
    ensures keeps { KeepsSymbols symbols.old rows.old (put_back result symbols.old symbols.new) rows.new }
{
    let rule = read_rule(line, rows, symbols, words)?;
    if rule.words > words.len() {
        return Err(Refusal::NoRoom(rule.place));
    }
    Ok(rule.words)
}

/// The answer to a line: how many words its clause has, which stand first in the store, or why it is refused. Where it is
/// refused, the symbols are counted as before. The count stays within its bounds, the rows of the symbols that were counted
/// before stay as they were, and all that are counted after it have fixed arities, where they had them.
pub fn judge(
    line: &[u8],
    rows: &mut [SymbolRow],
    symbols: &mut usize,
    words: &mut [u32],
) -> Result<usize, Refusal>
    ensures is { after_answer result words.new symbols.new rows.new ≡ line_judged line.now words.old symbols.old rows.old }
    ensures keeps { KeepsSymbols symbols.old rows.old symbols.new rows.new }
{
    let before = *symbols;
    let answer = read(line, rows, symbols, words);
    if answer.is_err() {
        *symbols = before;
    }
    answer
}
