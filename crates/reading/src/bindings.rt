//! Bindings.
ghost use Rattle.std.specs.Prelude.{◌≡◌, ◌+◌, ◌-◌, ◌<◌, ◌≤◌, take, IfOk, OnOk};
ghost use Rattle.reading.specs.Limits.{bindings as most_bindings, binding_words};
ghost use Rattle.reading.specs.Bindings.{binding as binding_of, InOrder, Filled, held, pushed, binding_list, bindings_at};

use crate::purpose::{BINDING_WORDS, Purpose};
use crate::reader::Reader;
use logic::DEPTH;
use tokens::Fault;

/// How many bindings a list may have.
pub const BINDINGS: usize = 64;

/// How many places there are: that of each term and one behind the last.
pub const PLACES: usize = BINDINGS + 1;

/// Bindings: number k binds the variable `variables[k]` to the words of `terms` from `places[k]` up to `places[k + 1]`.
// Arrays of fixed size with a count, since reading and checking allocate nothing. That they are in order is no invariant: a reader is
// lent bindings in which anything may stand, and an invariant would ask more of whoever lends them.
#[derive(Clone, Copy)]
pub struct Bindings {
    pub variables: [u32; BINDINGS],
    pub places: [u32; PLACES],
    pub terms: [u32; BINDING_WORDS],
    pub count: usize,
}

impl Bindings {
    /// One binding more, whose term ends at `end`.
    fn push(&mut self, variable: u32, end: usize)
        requires { (self.old.count < most_bindings) × (end ≤ binding_words) }
        ensures { self.new ≡ pushed self.old variable end }
    {
        self.variables[self.count] = variable;
        self.places[self.count + 1] = end as u32;
        self.count += 1;
    }
}

impl Reader<'_, '_> {
    ghost use Rattle.reading.specs.declared.purpose.Purpose.TheVariants.{Binding};
    ghost use Rattle.reading.specs.Readers.{seen, Goes, Keeps, after_binding, after_bindings};

    /// A binding behind its opening bracket: its variable. The words of its term go to `terms`.
    #[tactic(auto, unfolding(crate::specs::Bindings::binding))]
    fn binding(&mut self, terms: &mut [u32]) -> Result<u32, Fault>
        requires { (self.old.purpose ≡ Binding) × (self.old.count ≤ binding_words) }
        ensures is { after_binding result self.old.count self.new terms.new ≡ binding_of self.old.at.line.now (seen self.old terms.old) }
        ensures on { IfOk result (λ v. (self.old.count ≤ self.new.count) × (self.new.count ≤ binding_words) × (take self.old.count terms.new ≡ take self.old.count terms.old)) }
        ensures goes { Goes self.old self.new }
    {
        let variable = self.at.variable()?;
        self.term(terms, DEPTH)?;
        self.at.close()?;
        Ok(variable)
    }

    /// The bindings up to the closing bracket, behind those that are read already.
    fn binding_list(&mut self, bindings: &mut Bindings) -> Result<(), Fault>
        requires purpose { self.old.purpose ≡ Binding }
        requires filled { Filled bindings.old self.old.count }
        ensures is { after_bindings result bindings.new self.new ≡ binding_list self.old.at.line.now (most_bindings + 1 - bindings.old.count) (held bindings.old) (seen self.old bindings.old.terms) }
        ensures ordered { OnOk result (InOrder bindings.new) }
        ensures goes { Goes self.old self.new }
    {
        while let Some(place) = self.at.another()? {
            if bindings.count == BINDINGS {
                return Err(Fault::ManyBindings(place));
            }
            let variable = self.binding(&mut bindings.terms)?;
            bindings.push(variable, self.count);
        }
        Ok(())
    }

    /// The bracketed list of bindings that is due.
    pub fn bindings(&mut self, bindings: &mut Bindings) -> Result<(), Fault>
        ensures is { after_bindings result bindings.new self.new ≡ bindings_at self.old.at.line.now self.old.at.pos self.old.symbols self.old.rows.now }
        ensures ordered { OnOk result (InOrder bindings.new) }
        ensures keeps { Keeps self.old self.new }
    {
        self.purpose = Purpose::Binding;
        self.count = 0;
        self.at.open()?;
        bindings.places[0] = 0;
        bindings.count = 0;
        self.binding_list(bindings)
    }
}
