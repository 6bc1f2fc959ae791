//! From a line to its tokens: the lexer, the forms of runs, and the refusals of a text.
#![tactic(auto)]

mod byte;
mod fault;
mod form;
mod token;

pub use byte::Class;
pub use fault::Fault;
pub use form::{LARGEST_NUMBER, variable};
pub use token::{Lexeme, Token, next};
