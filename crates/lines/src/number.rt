//! Numbers of a line, and its end.
ghost use Rattle.std.specs.Prelude.{◌≡◌};
ghost use Rattle.reading.specs.States.{◌then◌};
ghost use Rattle.reading.specs.Cursors.{Onward};
ghost use Rattle.lines.specs.Numbers.{number_at, step_number, line_end, number_read, number_and_end};

use reading::Cursor;
use tokens::{Fault, next};

/// The number that is due.
pub fn read_number(at: &mut Cursor<'_>) -> Result<u32, Fault>
    ensures is { number_read result at.new ≡ (number_at at.old.line.now at.old.pos then number_and_end) }
    ensures on { Onward at.old at.new result }
{
    at.next()?.number()
}

/// The step number that is due: a number of at least 1.
pub fn read_step_number(at: &mut Cursor<'_>) -> Result<u32, Fault>
    ensures is { number_read result at.new ≡ (step_number at.old.line.now at.old.pos then number_and_end) }
    ensures on { Onward at.old at.new result }
{
    let lexeme = at.next()?;
    let number = lexeme.number()?;
    if number == 0 {
        return Err(Fault::Form(lexeme.place));
    }
    Ok(number)
}

/// Refuses whatever stands behind the line's closing bracket but spaces.
pub fn check_end(at: Cursor<'_>) -> Result<(), Fault>
    ensures { result ≡ line_end at.entry.line.now at.entry.pos }
{
    // No `?`: the refusal itself is looked at, since the one at the line's end is what is wanted.
    match next(at.line, at.pos) {
        Ok(lexeme) => Err(Fault::Due(lexeme.place)),
        Err(Fault::Early(_)) => Ok(()),
        Err(fault) => Err(fault),
    }
}
