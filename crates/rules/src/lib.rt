//! The six inference rules on words, as a bench has them.
#![tactic(auto)]

mod bound;
mod flip;
mod instantiate;
mod literal;
mod paramod;
mod pieces;
mod position;
mod propositional;
mod reflexive;
mod resolve;
mod sides;

pub use flip::Flip;
pub use instantiate::Instantiate;
pub use paramod::Paramod;
pub use propositional::Propositional;
pub use reflexive::Reflexive;
pub use resolve::Resolve;
