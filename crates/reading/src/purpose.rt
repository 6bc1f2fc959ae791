//! What is read.
ghost use Rattle.std.specs.Prelude.{◌≡◌};
ghost use Rattle.reading.specs.States.{enters as enters_of, full as full_of};

/// How many words the terms of bindings may have together.
pub const BINDING_WORDS: usize = 512;

/// What is read: it decides whether new names are entered, and how many words there may be.
#[derive(Clone, Copy, PartialEq, Eq)]
pub enum Purpose {
    /// The clause of a rule, while the book is open.
    Rule,
    /// The clause of a step.
    Step,
    /// The terms of a step's bindings.
    Binding,
}

impl Purpose {
    /// Whether new names are entered.
    pub fn enters(self) -> bool
        ensures { result ≡ enters_of self }
    {
        self == Purpose::Rule
    }

    /// Whether no word more may come.
    pub fn full(self, count: usize) -> bool
        ensures { result ≡ full_of self count }
    {
        match self {
            Purpose::Rule | Purpose::Step => false,
            Purpose::Binding => count >= BINDING_WORDS,
        }
    }
}
