//! Positions.
ghost use Rattle.std.specs.Prelude.{◌≡◌, ◌≤◌, IfOk, IfSome, ◌≢◌, ◌==◌};
ghost use Rattle.lines.specs.Limits.{position_numbers};
ghost use Rattle.reading.specs.Cursors.{Onward};
ghost use Rattle.lines.specs.Positions.{turned_to, position_mark, position_read, position_at, StaysInLine};

use reading::Cursor;
use tokens::{Fault, Token};

/// How many numbers a position may have.
pub const POSITION_NUMBERS: usize = 32;

/// The next number of a position, or none at its closing bracket; `given` numbers are read already.
fn next_number(at: &mut Cursor<'_>, given: usize) -> Result<Option<u32>, Fault>
    ensures is { turned_to result at.new ≡ position_mark at.old.line.now (given == position_numbers) at.old.pos }
    ensures few { IfOk result (λ o. IfSome o (λ n. given ≢ position_numbers)) }
    ensures on { Onward at.old at.new result }
{
    let lexeme = at.next()?;
    if lexeme.token == Token::Close {
        return Ok(None);
    }
    let number = lexeme.number()?;
    if given == POSITION_NUMBERS {
        return Err(Fault::ManyNumbers(lexeme.place));
    }
    Ok(Some(number))
}

/// The position that is due: how many numbers it has.
pub fn read_position(
    at: &mut Cursor<'_>,
    position: &mut [u32; POSITION_NUMBERS],
) -> Result<usize, Fault>
    ensures is { position_read result position.new at.new ≡ position_at at.old.line.now at.old.pos }
    ensures few { IfOk result (λ n. n ≤ position_numbers) }
    ensures on { StaysInLine at.old at.new }
{
    at.open()?;
    let mut given = 0;
    // Counted by hand: over `position.iter_mut()` the bracket behind the last number would have to be read apart.
    while let Some(number) = next_number(at, given)? {
        position[given] = number;
        given += 1;
    }
    Ok(given)
}
