//! Step lines.
ghost use Rattle.std.specs.Prelude.{◌≡◌, OnOk};
ghost use Rattle.reading.specs.Fixed.{Fixed};
ghost use Rattle.reading.specs.Readers.{Keeps};
ghost use Rattle.lines.specs.Justifications.{Usable};
ghost use Rattle.lines.specs.Steps.{after_step, step_text, step_line};

use crate::justification::{Justification, Keyword, read_justification};
use crate::number::{check_end, read_step_number};
use crate::shape::{Shape, Shapes};
use logic::SymbolRow;
use reading::{Cursor, Purpose, Reader, check_count};
use tokens::Fault;

/// A step line: the place of its opening bracket, its step number, the keyword of its justification, the shape that this stands for, and how
/// many words its clause has.
#[derive(Clone, Copy)]
pub struct StepLine<'a> {
    pub place: usize,
    pub number: u32,
    pub keyword: &'a [u8],
    pub shape: Shape,
    pub words: usize,
}

/// The text of a step line.
#[tactic(auto, unfolding(crate::specs::Steps::step_text))]
fn read_text<'a, S: Shapes>(
    reader: &mut Reader<'a, '_>,
    bench: &S,
    out: &mut [u32],
    justification: &mut Justification,
) -> Result<StepLine<'a>, Fault>
    ensures is { reader.old.at.pos ≡ 0 → after_step result justification.new out.new reader.new.symbols reader.new.rows.now ≡ step_text reader.old.at.line.now (S.shapes bench.now) out.old reader.old.symbols reader.old.rows.now }
    ensures usable { OnOk result (Usable justification.new) }
    ensures keeps { Keeps reader.old reader.new }
{
    reader.at.open()?;
    let place = reader.at.pos - 1;
    reader.at.word(b"step")?;
    let number = read_step_number(&mut reader.at)?;
    let Keyword { run, shape } = read_justification(reader, bench, justification)?;
    let words = reader.clause(Purpose::Step, out)?;
    reader.at.close()?;
    check_end(reader.at)?;
    Ok(StepLine {
        place,
        number,
        keyword: run,
        shape,
        words,
    })
}

// The rows and their count stay two parameters, as in `read_rule`.
/// Reads `(step N justification clause)`: the clause's words go to `out`, what stands behind the keyword to `justification`. The count of
/// symbols stays as it was, and so do their rows where the arities are fixed.
pub fn read_step<'a, S: Shapes>(
    line: &'a [u8],
    bench: &S,
    rows: &mut [SymbolRow],
    symbols: &mut usize,
    out: &mut [u32],
    justification: &mut Justification,
) -> Result<StepLine<'a>, Fault>
    ensures is { after_step result justification.new out.new symbols.new rows.new ≡ step_line line.now (S.shapes bench.now) out.old symbols.old rows.old }
    ensures usable { OnOk result (Usable justification.new) }
    ensures counted { symbols.new ≡ symbols.old }
    ensures kept { Fixed symbols.old rows.old → rows.new ≡ rows.old }
{
    check_count(rows, *symbols)?;
    // Written out as in `read_rule`, for the reason given there.
    let mut reader = Reader {
        purpose: Purpose::Step,
        at: Cursor { line, pos: 0 },
        count: 0,
        rows,
        symbols: *symbols,
    };
    let read = read_text(&mut reader, bench, out, justification);
    *symbols = reader.symbols;
    read
}
