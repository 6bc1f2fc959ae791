//! Why a line is refused.
ghost use Rattle.std.specs.Prelude.{◌≡◌};
ghost use Rattle.tokens.specs.Faults.{fault_number, fault_place};

/// A refusal, with its place in the line; that of a count lies at 0.
#[derive(Clone, Copy, PartialEq, Eq, Debug)]
pub enum Fault {
    /// A byte that no token has.
    NoToken(usize),
    /// The line ends early.
    Early(usize),
    /// Another token, or none, is due.
    Due(usize),
    /// A run of more than 16 bytes.
    Long(usize),
    /// A run out of form.
    Form(usize),
    /// A term of depth 33.
    Deep(usize),
    /// The 33rd literal.
    ManyLiterals(usize),
    /// The 33rd number of a position.
    ManyNumbers(usize),
    /// One binding too many.
    ManyBindings(usize),
    /// One word of bindings too many.
    ManyWords(usize),
    /// The symbol has another kind.
    OtherKind(usize),
    /// The symbol has another arity.
    OtherArity(usize),
    /// The book is sealed and has no such symbol.
    Unknown(usize),
    /// A fifth argument.
    ManyArguments(usize),
    /// No room for one more symbol.
    ManySymbols(usize),
    /// No inference rule has the keyword.
    NoRule(usize),
    /// The count of symbols exceeds their store, of which at most 256 rows are used.
    Count,
}

impl Fault {
    /// The refusal's number.
    pub fn number(self) -> u32
        ensures { result ≡ fault_number self }
    {
        match self {
            Fault::NoToken(_) => 1,
            Fault::Early(_) => 2,
            Fault::Due(_) => 3,
            Fault::Long(_) => 4,
            Fault::Form(_) => 5,
            Fault::Deep(_) => 6,
            Fault::ManyLiterals(_) | Fault::ManyNumbers(_) => 7,
            Fault::ManyBindings(_) | Fault::ManyWords(_) => 7,
            Fault::OtherKind(_) | Fault::OtherArity(_) | Fault::Unknown(_) => 8,
            Fault::ManyArguments(_) | Fault::ManySymbols(_) => 9,
            Fault::NoRule(_) => 11,
            Fault::Count => 42,
        }
    }

    /// Where in the line it lies, counted from 0.
    pub fn place(self) -> usize
        ensures { result ≡ fault_place self }
    {
        match self {
            Fault::NoToken(place)
            | Fault::Early(place)
            | Fault::Due(place)
            | Fault::Long(place)
            | Fault::Form(place)
            | Fault::Deep(place)
            | Fault::ManyLiterals(place)
            | Fault::ManyNumbers(place)
            | Fault::ManyBindings(place)
            | Fault::ManyWords(place)
            | Fault::OtherKind(place)
            | Fault::OtherArity(place)
            | Fault::Unknown(place)
            | Fault::ManyArguments(place)
            | Fault::ManySymbols(place)
            | Fault::NoRule(place) => place,
            Fault::Count => 0,
        }
    }
}
