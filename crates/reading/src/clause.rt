//! Clauses.
ghost use Rattle.std.specs.Prelude.{◌≡◌, ◌+◌, ◌≤◌, IfOk};
ghost use Rattle.logic.specs.Limits.{literals as most_literals};
ghost use Rattle.logic.specs.Words.{negation};
ghost use Rattle.reading.specs.Clauses.{sides as sides_of, atom as atom_of, negated as negated_of, literal as literal_of, literal_list, clause_from};

use crate::purpose::Purpose;
use crate::reader::Reader;
use crate::term::Role;
use logic::{DEPTH, EQUALITY_WORD, Kind, LITERALS, NEGATION, SYMBOL_WORD};
use tokens::{Fault, Token};

impl Reader<'_, '_> {
    ghost use Rattle.reading.specs.Readers.{seen, Goes, Keeps, done, clause_read};

    /// The two sides of an equation and its closing bracket.
    #[tactic(auto, unfolding(crate::specs::Clauses::sides))]
    fn sides(&mut self, out: &mut [u32]) -> Result<(), Fault>
        ensures is { done result self.new out.new ≡ sides_of self.old.at.line.now (seen self.old out.old) }
        ensures goes { Goes self.old self.new }
    {
        self.term(out, DEPTH)?;
        self.term(out, DEPTH)?;
        self.at.close()
    }

    /// An atom behind its opening bracket, whose head has `sign` added.
    fn atom(&mut self, out: &mut [u32], sign: u32) -> Result<(), Fault>
        requires { sign ≤ negation }
        ensures is { done result self.new out.new ≡ atom_of self.old.at.line.now sign (seen self.old out.old) }
        ensures goes { Goes self.old self.new }
    {
        if self.at.eat(Token::Equals)? {
            self.write(out, sign + EQUALITY_WORD);
            return self.sides(out);
        }
        let role = Role {
            base: sign + SYMBOL_WORD,
            kind: Kind::Predicate,
            room: DEPTH,
        };
        self.application(out, role)
    }

    /// The atom of a negated literal, behind the word `not`.
    #[tactic(auto, unfolding(crate::specs::Clauses::negated))]
    fn negated(&mut self, out: &mut [u32]) -> Result<(), Fault>
        ensures is { done result self.new out.new ≡ negated_of self.old.at.line.now (seen self.old out.old) }
        ensures goes { Goes self.old self.new }
    {
        self.at.open()?;
        self.atom(out, NEGATION)?;
        self.at.close()
    }

    /// A literal behind its opening bracket.
    #[tactic(auto, unfolding(crate::specs::Clauses::literal))]
    fn literal(&mut self, out: &mut [u32]) -> Result<(), Fault>
        ensures is { done result self.new out.new ≡ literal_of self.old.at.line.now (seen self.old out.old) }
        ensures goes { Goes self.old self.new }
    {
        if self.at.eat(Token::Name(b"not"))? {
            return self.negated(out);
        }
        self.atom(out, 0)
    }

    /// The literals up to the closing bracket.
    fn literals(&mut self, out: &mut [u32]) -> Result<(), Fault>
        ensures is { done result self.new out.new ≡ literal_list self.old.at.line.now (most_literals + 1) (seen self.old out.old) }
        ensures goes { Goes self.old self.new }
    {
        let mut given = 0;
        // Counted by hand: the list ends at its bracket, which no iterator over a count gives.
        while let Some(place) = self.at.another()? {
            if given == LITERALS {
                return Err(Fault::ManyLiterals(place));
            }
            self.literal(out)?;
            given += 1;
        }
        Ok(())
    }

    /// The clause that is due: how many words it has. Its words go to `out`, and those that find no room there are only counted.
    pub fn clause(&mut self, purpose: Purpose, out: &mut [u32]) -> Result<usize, Fault>
        ensures is { clause_read result self.new out.new ≡ clause_from self.old.at.line.now purpose self.old.at.pos out.old self.old.symbols self.old.rows.now }
        ensures count { IfOk result (λ n. n ≡ self.new.count) }
        ensures purpose { self.new.purpose ≡ purpose }
        ensures keeps { Keeps self.old self.new }
    {
        self.purpose = purpose;
        self.count = 0;
        self.at.open()?;
        self.at.word(b"or")?;
        self.literals(out)?;
        Ok(self.count)
    }
}
