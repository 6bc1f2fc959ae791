//! Worked examples: small clauses, their words, and what their lines read as.
#![tactic(auto, unfolding(
// tokens and symbols
logic::specs::Directory::first_that, tokens::specs::Tokens::lex, tokens::specs::Forms::variable_form,
// terms
reading::specs::Terms::args, reading::specs::Terms::nest, reading::specs::Terms::application,
// clauses and lines
reading::specs::Clauses::negated, reading::specs::Clauses::literal, reading::specs::Clauses::literal_list, lines::specs::Rules::rule_line))]

ghost use Rattle.worked.specs.Trees.{WordsOfSmallClauses};
ghost use Rattle.worked.specs.Texts.{LinesOfSmallClauses, LinesHaveTheWordsOfTrees, VariablesEndAt63, ReadAgainTheSame};

/// States the words of three small clauses.
pub fn words_of_small_clauses()
    ensures { WordsOfSmallClauses }
{}

/// States what the lines of these clauses read as.
pub fn lines_of_small_clauses()
    ensures { LinesOfSmallClauses }
{}

/// States that the words that are read are those of the trees.
pub fn lines_have_the_words_of_trees()
    ensures { LinesHaveTheWordsOfTrees }
{}

/// States that v63 is the last variable, and where v64 and v07 are refused.
pub fn variables_end_at_63()
    ensures { VariablesEndAt63 }
{}

/// States that a line that is read again has the same words.
pub fn read_again_the_same()
    ensures { ReadAgainTheSame }
{}
