//! From a line's text to the words of terms and clauses.
#![tactic(auto)]

mod alone;
mod bindings;
mod clause;
mod cursor;
mod purpose;
mod reader;
mod symbols;
mod term;

pub use alone::{Extent, read_bindings, read_clause};
pub use bindings::{BINDINGS, Bindings, PLACES};
pub use cursor::Cursor;
pub use purpose::{BINDING_WORDS, Purpose};
pub use reader::Reader;
pub use symbols::check_count;
