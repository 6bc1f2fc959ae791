//! The forms of numbers, variables and names.
ghost use Rattle.std.specs.Prelude.{◌≡◌, ◌≤◌, ◌&&◌, length, if◌then◌else◌, Some, None, nat_le, slice_index};
ghost use Rattle.logic.specs.Limits.{name_bytes};
ghost use Rattle.logic.specs.Names.{letter};
ghost use Rattle.tokens.specs.Tokens.{tok};
ghost use Rattle.tokens.specs.Forms.{decimal as decimalOf, digits as digitsOf, value, reserved as reservedOf, in_form, name_in_form, number_form, variable_form, keyword_form, symbol_form, behind};

use crate::byte::Class;
use crate::fault::Fault;
use crate::token::{Lexeme, Token};
use logic::{NAME_BYTES, VARIABLES};

/// The largest number that a line may have.
pub const LARGEST_NUMBER: u32 = 999_999;

// By hand and not by `parse`, which takes a sign and leading zeros too.
/// What a run of digits, at most as long as a name, stands for, if all are digits and there are some.
fn digits(run: &[u8]) -> Option<u64>
    requires { length run.now ≤ name_bytes }
    ensures { result ≡ (if digitsOf run.now then Some (value run.now) else None) }
{
    let mut n: u64 = 0;
    for byte in run {
        if !Class::Digit.has(*byte) {
            return None;
        }
        n = n * 10 + u64::from(*byte - b'0');
    }
    if run.is_empty() { None } else { Some(n) }
}

/// The number of a decimal that is at most `most`: digits only, no leading zero except 0 itself.
fn decimal(run: &[u8], most: u32) -> Option<u32>
    requires { length run.now ≤ name_bytes }
    ensures { result ≡ (if decimalOf run.now && nat_le (value run.now) most then Some (value run.now) else None) }
{
    let n = digits(run)?;
    if (run.len() == 1 || run[0] >= b'1') && n <= u64::from(most) {
        Some(n as u32)
    } else {
        None
    }
}

/// The number of these digits of a run, in form.
fn in_form(run: &[u8], digits: &[u8], most: u32, place: usize) -> Result<u32, Fault>
    requires { length digits.now ≤ length run.now }
    ensures { result ≡ in_form run.now digits.now most place }
{
    if run.len() > NAME_BYTES {
        return Err(Fault::Long(place));
    }
    decimal(digits, most).ok_or(Fault::Form(place))
}

/// The number of a variable's run.
pub fn variable(run: &[u8], place: usize) -> Result<u32, Fault>
    ensures { result ≡ variable_form run.now place }
{
    let digits = match run {
        [_, digits @ ..] => digits,
        [] => run,
    };
    in_form(run, digits, VARIABLES - 1, place)
}

/// Whether the name is never a symbol.
fn reserved(run: &[u8]) -> bool
    ensures { result ≡ reservedOf run.now }
{
    matches!(run, b"or" | b"not")
}

/// Whether a run starts with a letter.
fn lettered(run: &[u8]) -> bool
    ensures { result ≡ letter (slice_index run.now 0) }
{
    matches!(run.first(), Some(b'a'..=b'z'))
}

/// A name of at most 16 bytes that starts with a letter.
fn name_in_form(run: &[u8], place: usize) -> Result<&[u8], Fault>
    ensures { behind result ≡ name_in_form run.now place }
{
    if run.len() > NAME_BYTES {
        return Err(Fault::Long(place));
    }
    if lettered(run) {
        Ok(run)
    } else {
        Err(Fault::Form(place))
    }
}

impl<'a> Lexeme<'a> {
    /// The number that the token is, where a number is due.
    pub fn number(self) -> Result<u32, Fault>
        ensures { result ≡ number_form (tok self.entry.token) self.entry.place }
    {
        match self.token {
            Token::Number(run) => in_form(run, run, LARGEST_NUMBER, self.place),
            _ => Err(Fault::Due(self.place)),
        }
    }

    /// The name that the token is, where the keyword of an inference rule is due.
    pub fn keyword(self) -> Result<&'a [u8], Fault>
        ensures { behind result ≡ keyword_form (tok self.entry.token) self.entry.place }
    {
        match self.token {
            Token::Name(run) => name_in_form(run, self.place),
            _ => Err(Fault::Due(self.place)),
        }
    }

    /// The name that the token is, where a symbol is due.
    pub fn symbol_name(self) -> Result<&'a [u8], Fault>
        ensures { behind result ≡ symbol_form (tok self.entry.token) self.entry.place }
    {
        match self.token {
            Token::Name(run) if !reserved(run) => name_in_form(run, self.place),
            _ => Err(Fault::Due(self.place)),
        }
    }
}
