//! Tokens that are due, read one after another.
ghost use Rattle.std.specs.Prelude.{◌≡◌, IfOk};
ghost use Rattle.tokens.specs.Tokens.{lex, seen, tok};
ghost use Rattle.reading.specs.Clauses.{opening, closing, wording};
ghost use Rattle.reading.specs.Bindings.{variable_at};
ghost use Rattle.reading.specs.Cursors.{Onward, Still, reached, found, awaited, eaten, ate, bracketed, bracket_at};

use tokens::{Fault, Lexeme, Token, variable};

/// A line, and the place in it where reading stands.
#[derive(Clone, Copy)]
pub struct Cursor<'a> {
    pub line: &'a [u8],
    pub pos: usize,
}

impl<'a> Cursor<'a> {
    /// The next token; reading goes on behind it.
    pub fn next(&mut self) -> Result<Lexeme<'a>, Fault>
        ensures is { seen result ≡ lex self.old.line.now self.old.pos }
        ensures behind { IfOk result (λ l. self.new.pos ≡ l.end) }
        ensures on { Onward self.old self.new result }
    {
        let lexeme = tokens::next(self.line, self.pos)?;
        self.pos = lexeme.end;
        Ok(lexeme)
    }

    /// Reads the token that is due.
    fn expect(&mut self, due: Token<'_>) -> Result<(), Fault>
        ensures is { reached result self.new ≡ awaited (tok due.entry) self.old.line.now self.old.pos }
        ensures on { Onward self.old self.new result }
    {
        let lexeme = self.next()?;
        if lexeme.token == due {
            Ok(())
        } else {
            Err(Fault::Due(lexeme.place))
        }
    }

    /// Reads the token if it stands next, and says whether it does; else reading does not go on.
    pub fn eat(&mut self, wanted: Token<'_>) -> Result<bool, Fault>
        ensures is { eaten result self.new ≡ ate (tok wanted.entry) self.old.line.now self.old.pos }
        ensures on { Still self.old self.new result }
    {
        let ahead = tokens::next(self.line, self.pos)?;
        if ahead.token != wanted {
            return Ok(false);
        }
        self.pos = ahead.end;
        Ok(true)
    }

    /// Reads the opening bracket that is due.
    pub fn open(&mut self) -> Result<(), Fault>
        ensures is { reached result self.new ≡ opening self.old.line.now self.old.pos }
        ensures on { Onward self.old self.new result }
    {
        self.expect(Token::Open)
    }

    /// Reads the closing bracket that is due.
    pub fn close(&mut self) -> Result<(), Fault>
        ensures is { reached result self.new ≡ closing self.old.line.now self.old.pos }
        ensures on { Onward self.old self.new result }
    {
        self.expect(Token::Close)
    }

    /// Reads a certain word that is due.
    pub fn word(&mut self, due: &[u8]) -> Result<(), Fault>
        ensures is { reached result self.new ≡ wording due.now self.old.line.now self.old.pos }
        ensures on { Onward self.old self.new result }
    {
        self.expect(Token::Name(due))
    }

    /// The place of the bracket with which one more of a list opens, or none where the list's closing bracket stands.
    pub fn another(&mut self) -> Result<Option<usize>, Fault>
        ensures is { bracketed result self.new ≡ bracket_at self.old.line.now self.old.pos }
        ensures on { Onward self.old self.new result }
    {
        let lexeme = self.next()?;
        match lexeme.token {
            Token::Open => Ok(Some(lexeme.place)),
            Token::Close => Ok(None),
            _ => Err(Fault::Due(lexeme.place)),
        }
    }

    /// The variable that is due.
    pub fn variable(&mut self) -> Result<u32, Fault>
        ensures is { found result self.new ≡ variable_at self.old.line.now self.old.pos }
        ensures on { Onward self.old self.new result }
    {
        let lexeme = self.next()?;
        match lexeme.token {
            Token::Variable(run) => variable(run, lexeme.place),
            _ => Err(Fault::Due(lexeme.place)),
        }
    }
}
