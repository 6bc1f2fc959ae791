//! The tokens of a line.
ghost use Rattle.std.specs.Prelude.{◌≡◌, ◌<◌, ◌≤◌, length, IfOk};
ghost use Rattle.tokens.specs.Tokens.{tok, class as class_of, seen, lex};

use crate::byte::{Class, past};
use crate::fault::Fault;

/// A token; a run borrows the line. A run's class says what it counts as, not that its form is right.
#[derive(Clone, Copy, PartialEq, Eq)]
pub enum Token<'a> {
    Open,
    Close,
    Equals,
    Number(&'a [u8]),
    Variable(&'a [u8]),
    Name(&'a [u8]),
}

/// A token with its place and the place behind it.
#[derive(Clone, Copy)]
pub struct Lexeme<'a> {
    pub token: Token<'a>,
    pub place: usize,
    pub end: usize,
}

/// What a run counts as.
fn class(run: &[u8]) -> Token<'_>
    requires { 0 < length run.now }
    ensures { tok result ≡ class_of run.now }
{
    if Class::Digit.has(run[0]) {
        Token::Number(run)
    } else if run[0] == b'v' && run.len() > 1 && past(run, 1, Class::Digit) == run.len() {
        Token::Variable(run)
    } else {
        Token::Name(run)
    }
}

/// The first token from `from` on.
pub fn next(line: &[u8], from: usize) -> Result<Lexeme<'_>, Fault>
    ensures is { seen result ≡ lex line.now from }
    ensures on { IfOk result (λ l. (from < l.end) × (l.end ≤ length line.now)) }
{
    let place = past(line, from, Class::Space);
    if place >= line.len() {
        return Err(Fault::Early(line.len()));
    }
    let mut end = place + 1;
    let token = match line[place] {
        b'(' => Token::Open,
        b')' => Token::Close,
        b'=' => Token::Equals,
        byte if Class::Run.has(byte) => {
            end = past(line, place, Class::Run);
            class(&line[place..end])
        }
        _ => return Err(Fault::NoToken(place)),
    };
    Ok(Lexeme { token, place, end })
}
