//! Why an inference rule does not allow a conclusion.
ghost use Rattle.std.specs.Prelude.{◌≡◌};
ghost use Rattle.bench.specs.Faults.{rule_fault_number};

/// A fault of a step, found by its inference rule; `NoRule` is the bench's own, for a keyword that no rule has.
#[derive(Clone, Copy, Debug, PartialEq, Eq)]
pub enum RuleFault {
    NoRule,
    NoLiteral,
    NotOpposed,
    NoEquality,
    NoTerm,
    OtherTerm,
    BoundTwice,
    OtherConclusion,
}

impl RuleFault {
    /// The number of the fault.
    pub fn number(self) -> u32
        ensures { result ≡ rule_fault_number self }
    {
        match self {
            RuleFault::NoRule => 11,
            RuleFault::NoLiteral => 21,
            RuleFault::NotOpposed => 22,
            RuleFault::NoEquality => 23,
            RuleFault::NoTerm => 24,
            RuleFault::OtherTerm => 25,
            RuleFault::BoundTwice => 26,
            RuleFault::OtherConclusion => 27,
        }
    }
}
