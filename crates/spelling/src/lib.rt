//! What a line spells, in the words of the grammar, and that reading finds exactly that.
#![tactic(auto)]

ghost use Rattle.spelling.specs.Spelling.{RulesAreReadAsSpelled, RulesAreSpelledOneWay, SpelledRulesAreLawful, LawfulClausesAreSpelled};
ghost use Rattle.spelling.specs.StepSpelling.{StepsAreReadAsSpelled, StepsAreSpelledOneWay, SpelledStepsAreLawful};

/// States, of symbols that are counted within their store and have settled arities: a line reads as a rule exactly when
/// it spells one; it spells one in one way only; what it spells is lawful over the symbols that it leads to; and every
/// clause that is lawful over symbols whose names can be spelled is that of some line.
pub fn rules_are_read_as_spelled()
    ensures exact { RulesAreReadAsSpelled }
    ensures unique { RulesAreSpelledOneWay }
    ensures lawful { SpelledRulesAreLawful }
    ensures all { LawfulClausesAreSpelled }
{}

/// States the same of step lines, for whatever answers keywords with shapes; they leave the symbols as they are.
pub fn steps_are_read_as_spelled()
    ensures exact { StepsAreReadAsSpelled }
    ensures unique { StepsAreSpelledOneWay }
    ensures lawful { SpelledStepsAreLawful }
{}
