//! Why a line is refused.
ghost use Rattle.std.specs.Prelude.{◌≡◌, Some};
ghost use Rattle.mirtsjol.specs.declared.refusal.Refusal.TheVariants.{Text};
ghost use Rattle.mirtsjol.specs.Refusals.{refusal_number, refusal_place, refusal_text};

use std::fmt;
use tokens::Fault;

/// The number of the refusal of a clause whose words do not all fit the store.
const NO_ROOM: u32 = 40;

/// Why a line is refused.
#[derive(Clone, Copy, Debug, PartialEq, Eq)]
pub enum Refusal {
    /// It is no text of a rule line.
    Text(Fault),
    /// The words of its clause do not all fit the store; the place is that of its opening bracket.
    NoRoom(usize),
}

impl Refusal {
    /// The refusal's number.
    pub fn number(self) -> u32
        ensures { result ≡ refusal_number self }
    {
        match self {
            Refusal::Text(fault) => fault.number(),
            Refusal::NoRoom(_) => NO_ROOM,
        }
    }

    /// Where in the line it lies, counted from 0.
    pub fn place(self) -> usize
        ensures { result ≡ refusal_place self }
    {
        match self {
            Refusal::Text(fault) => fault.place(),
            Refusal::NoRoom(place) => place,
        }
    }
}

impl From<Fault> for Refusal {
    ghost from_gives = { λ fault refusal. refusal ≡ Text fault };

    fn from(why: Fault) -> Refusal {
        Refusal::Text(why)
    }
}

impl fmt::Display for Refusal {
    ghost output = { λ refusal. Some (refusal_text refusal) };

    fn fmt<W: fmt::Write>(&self, f: &mut fmt::Formatter<W>) -> fmt::Result {
        let number = self.number();
        let place = self.place();
        write!(f, "refused {number} {place}")
    }
}
