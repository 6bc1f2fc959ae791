//! The language of clauses: symbols, words, and which words are those of a clause.
#![tactic(auto)]

mod directory;
mod entry;
mod head;
mod injective;
mod lawful;
mod limits;
mod literals;
mod names;
mod row;
mod symbol;
mod words;

pub use directory::{Keyed, find};
pub use entry::{Entry, entry_numbered};
pub use head::takes;
pub use injective::words_determine_the_clause;
pub use lawful::is_clause;
pub use limits::{
    ARGUMENTS, DEPTH, EQUALITY_WORD, LITERALS, NAME_BYTES, NEGATION, SYMBOL_WORD, SYMBOLS,
    VARIABLES,
};
pub use literals::{Literals, literal_count, literal_span};
pub use names::symbol_named;
pub use row::{Kind, SymbolRow};
pub use symbol::{Symbol, is_name_byte, record};
pub use words::{Span, same, terms_end};
