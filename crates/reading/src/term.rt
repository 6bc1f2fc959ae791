//! Terms.
ghost use Rattle.std.specs.Prelude.{◌≡◌, ◌+◌, ◌<◌, ◌≤◌, IfOk, OnOk, Ok, ◌==◌};
ghost use Rattle.logic.specs.Limits.{arguments as most_arguments};
ghost use Rattle.logic.specs.Words.{symbol_word, negation};
ghost use Rattle.reading.specs.States.{full as full_of};
ghost use Rattle.reading.specs.Terms.{fitting as fitting_of, slot as slot_of, args, nest, application as application_of, term as term_of};

use crate::reader::Reader;
use logic::{ARGUMENTS, Kind, SYMBOL_WORD};
use tokens::{Fault, Token, variable};

/// An argument, as far as its first token: a variable is whole, a term is opened.
// No `Option`: an argument is itself optional, and none would not say that a term is opened.
#[derive(Clone, Copy, PartialEq, Eq)]
pub(crate) enum Argument {
    Variable(u32),
    Term,
}

/// How an application is read: the word of symbol 0 as its head, its symbol's kind, how deep its arguments may go.
#[derive(Clone, Copy)]
pub(crate) struct Role {
    pub base: u32,
    pub kind: Kind,
    pub room: usize,
}

/// Depth, words and number of an argument, in this order.
fn fitting(room: usize, words: bool, given: usize, place: usize) -> Result<(), Fault>
    ensures { result ≡ fitting_of (room == 0) words (given == most_arguments) place (Ok tt) }
{
    if room == 0 {
        return Err(Fault::Deep(place));
    }
    if words {
        return Err(Fault::ManyWords(place));
    }
    if given == ARGUMENTS {
        return Err(Fault::ManyArguments(place));
    }
    Ok(())
}

impl Reader<'_, '_> {
    ghost use Rattle.reading.specs.Readers.{seen, Goes, done, counted, slotted, HasRoom, finished};

    /// The argument that is due, as far as its first token, or none where the closing bracket stands.
    fn argument(&mut self, room: usize, given: usize) -> Result<Option<Argument>, Fault>
        ensures is { slotted result self.new.at.pos ≡ slot_of self.old.at.line.now (room == 0) (full_of self.old.purpose self.old.count) (given == most_arguments) self.old.at.pos }
        ensures on { IfOk result (λ a. (self.old.at.pos < self.new.at.pos) × HasRoom room given a) }
        ensures same { (self.new.count ≡ self.old.count) × (self.new.symbols ≡ self.old.symbols) × (self.new.rows.now ≡ self.old.rows.now) }
        ensures goes { Goes self.old self.new }
    {
        let lexeme = self.at.next()?;
        match lexeme.token {
            Token::Close => Ok(None),
            Token::Variable(run) => {
                let i = variable(run, lexeme.place)?;
                fitting(room, self.purpose.full(self.count), given, lexeme.place)?;
                Ok(Some(Argument::Variable(i)))
            }
            Token::Open => {
                fitting(room, false, given, lexeme.place)?;
                Ok(Some(Argument::Term))
            }
            _ => Err(Fault::Due(lexeme.place)),
        }
    }

    /// An application from its symbol on to its closing bracket.
    #[cycle(application_arguments)]
    #[tactic(auto, unfolding(crate::specs::Terms::application))]
    pub(crate) fn application(&mut self, out: &mut [u32], role: Role) -> Result<(), Fault>
        requires { role.base ≤ negation + symbol_word 0 }
        ensures is { done result self.new out.new ≡ application_of self.old.at.line.now role.room role.base role.kind (seen self.old out.old) }
        ensures on { OnOk result (self.old.at.pos < self.new.at.pos) }
        ensures goes { Goes self.old self.new }
    {
        let head = self.head(role.kind)?;
        self.write(out, role.base + head.symbol as u32);
        let given = self.arguments(out, role.room)?;
        self.settle(head.symbol, given, head.place)
    }

    /// The arguments up to the closing bracket: how many.
    #[cycle(application_arguments)]
    fn arguments(&mut self, out: &mut [u32], room: usize) -> Result<usize, Fault>
        ensures is { counted result self.new out.new ≡ args self.old.at.line.now (nest self.old.at.line.now room) (room == 0) (most_arguments + 1) 0 (seen self.old out.old) }
        ensures few { IfOk result (λ n. n ≤ most_arguments) }
        ensures goes { Goes self.old self.new }
    {
        let mut given = 0;
        // Counted by hand: the list ends at its bracket, which no iterator over a count gives.
        while let Some(argument) = self.argument(room, given)? {
            self.finish(out, argument, room)?;
            given += 1;
        }
        Ok(given)
    }

    /// The rest of an argument behind its first token.
    #[cycle(application_arguments)]
    fn finish(&mut self, out: &mut [u32], argument: Argument, room: usize) -> Result<(), Fault>
        requires { (0 < room) × (self.old.count < self.old.at.pos) }
        ensures is { done result self.new out.new ≡ finished self.old.at.line.now room argument (seen self.old out.old) }
        ensures goes { Goes self.old self.new }
    {
        match argument {
            Argument::Variable(i) => {
                self.write(out, i);
                Ok(())
            }
            Argument::Term => {
                let role = Role {
                    base: SYMBOL_WORD,
                    kind: Kind::Function,
                    room: room - 1,
                };
                self.application(out, role)
            }
        }
    }

    /// A term that may go `room` deep.
    pub(crate) fn term(&mut self, out: &mut [u32], room: usize) -> Result<(), Fault>
        ensures is { done result self.new out.new ≡ term_of self.old.at.line.now room (seen self.old out.old) }
        ensures goes { Goes self.old self.new }
    {
        match self.argument(room, 0)? {
            None => Err(Fault::Due(self.at.pos - 1)),
            Some(argument) => self.finish(out, argument, room),
        }
    }
}
