//! Lines of a book: rules and steps.
#![tactic(auto)]

mod justification;
mod number;
mod position;
mod rule;
mod shape;
mod step;

pub use justification::{FEW, Justification};
pub use position::POSITION_NUMBERS;
pub use rule::{RuleLine, read_rule};
pub use shape::{Shape, Shapes};
pub use step::{StepLine, read_step};
