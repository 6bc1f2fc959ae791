//! The six inference rules on trees: what each answers, that what it allows follows, and what exactly it allows.
#![tactic(auto)]

ghost use Rattle.inference.specs.Soundness.{InstantiateIsSound, ResolveIsSound, ParamodIsSound, FlipIsSound, PropositionalIsSound, ReflexiveIsSound};
ghost use Rattle.inference.specs.Exactness.{InstantiateIsExact, ResolveIsExact, ParamodIsExact, FlipIsExact, PropositionalIsExact, ReflexiveIsExact};
ghost use Rattle.inference.specs.Order.{InstantiateAnswers, ResolveAnswers, ParamodAnswers, FlipAnswers, PropositionalAnswers, ReflexiveAnswers};
ghost use Rattle.inference.specs.Worked.{WorkedInstances, WorkedResolvents, WorkedParamodulants, WorkedFlips, WorkedRearrangements, WorkedReflections};

/// States, of each inference rule: where it answers allowed, the conclusion is true in every structure, finite or
/// countable, in which its premises are true.
pub fn the_six_rules_are_sound()
    ensures instantiate { InstantiateIsSound }
    ensures resolve { ResolveIsSound }
    ensures paramod { ParamodIsSound }
    ensures flip { FlipIsSound }
    ensures propositional { PropositionalIsSound }
    ensures reflexive { ReflexiveIsSound }
{}

/// States, of each inference rule: it answers allowed exactly when its side conditions hold and the conclusion is the one
/// that it gives.
pub fn the_six_rules_are_exact()
    ensures instantiate { InstantiateIsExact }
    ensures resolve { ResolveIsExact }
    ensures paramod { ParamodIsExact }
    ensures flip { FlipIsExact }
    ensures propositional { PropositionalIsExact }
    ensures reflexive { ReflexiveIsExact }
{}

/// States the whole answer of each inference rule: the first of its faults that applies, in its order, and allowed where
/// none does.
pub fn the_six_rules_answer_in_order()
    ensures instantiate { InstantiateAnswers }
    ensures resolve { ResolveAnswers }
    ensures paramod { ParamodAnswers }
    ensures flip { FlipAnswers }
    ensures propositional { PropositionalAnswers }
    ensures reflexive { ReflexiveAnswers }
{}

/// States the answers to worked inferences, allowed ones and faults 21 to 27.
pub fn worked_inferences()
    ensures instances { WorkedInstances }
    ensures resolvents { WorkedResolvents }
    ensures paramodulants { WorkedParamodulants }
    ensures flips { WorkedFlips }
    ensures rearrangements { WorkedRearrangements }
    ensures reflections { WorkedReflections }
{}
