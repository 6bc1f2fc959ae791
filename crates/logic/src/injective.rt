//! The words of a clause determine it.
ghost use Rattle.logic.specs.Injective.{WordsDetermineTheClause};

/// States that two lawful clauses with the same words are the same clause.
pub fn words_determine_the_clause()
    ensures { WordsDetermineTheClause }
{}
