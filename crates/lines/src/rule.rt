//! Rule lines.
ghost use Rattle.std.specs.Prelude.{◌≡◌, ◌≤◌, length, take};
ghost use Rattle.logic.specs.Limits.{symbols as symbol_room};
ghost use Rattle.reading.specs.Fixed.{Fixed};
ghost use Rattle.reading.specs.Readers.{Keeps};
ghost use Rattle.lines.specs.Rules.{after_rule, rule_line};

use crate::number::{check_end, read_step_number};
use logic::SymbolRow;
use reading::{Cursor, Purpose, Reader, check_count};
use tokens::Fault;

/// A rule line: the place of its opening bracket, its step number and how many words its clause has.
#[derive(Clone, Copy)]
pub struct RuleLine {
    pub place: usize,
    pub number: u32,
    pub words: usize,
}

/// The text of a rule line.
#[tactic(auto, unfolding(crate::specs::Rules::rule_line))]
fn read_text(reader: &mut Reader<'_, '_>, out: &mut [u32]) -> Result<RuleLine, Fault>
    ensures is { reader.old.at.pos ≡ 0 → after_rule result out.new reader.new.symbols reader.new.rows.now ≡ rule_line reader.old.at.line.now out.old reader.old.symbols reader.old.rows.now }
    ensures keeps { Keeps reader.old reader.new }
{
    reader.at.open()?;
    let place = reader.at.pos - 1;
    reader.at.word(b"rule")?;
    let number = read_step_number(&mut reader.at)?;
    let words = reader.clause(Purpose::Rule, out)?;
    reader.at.close()?;
    check_end(reader.at)?;
    Ok(RuleLine {
        place,
        number,
        words,
    })
}

// The rows and their count stay two parameters: a caller may have any count, which is refused with 42; and of a slice in a struct that is
// itself a field, the check loses what becomes of it (tried).
/// Reads `(rule N clause)`: the clause's words go to `out`, new names become symbols. Whether the line is read or refused, no symbol is lost,
/// their count stays within its bounds, and the rows of those counted before the line stay as they were where the arities are fixed.
pub fn read_rule(
    line: &[u8],
    rows: &mut [SymbolRow],
    symbols: &mut usize,
    out: &mut [u32],
) -> Result<RuleLine, Fault>
    ensures is { after_rule result out.new symbols.new rows.new ≡ rule_line line.now out.old symbols.old rows.old }
    ensures kept { Fixed symbols.old rows.old → take symbols.old rows.new ≡ take symbols.old rows.old }
    ensures counted { (symbols.old ≤ symbols.new) × ((symbols.old ≤ length rows.old) × (symbols.old ≤ symbol_room) → (symbols.new ≤ length rows.new) × (symbols.new ≤ symbol_room)) }
{
    check_count(rows, *symbols)?;
    // Written out here, in `read_step` and in `reading`: of a constructor that may refuse, the caller does not learn what the rows are then
    // (tried). What is read and the count are set by `clause`.
    let mut reader = Reader {
        purpose: Purpose::Rule,
        at: Cursor { line, pos: 0 },
        count: 0,
        rows,
        symbols: *symbols,
    };
    let read = read_text(&mut reader, out);
    *symbols = reader.symbols;
    read
}
