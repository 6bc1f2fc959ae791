//! Inference rules behind one interface, and the bench: a row of them.
#![tactic(auto)]

mod bench;
mod fault;
mod question;
mod rule;

pub use bench::{Bench, Empty, Row, the_bench_gives_its_shapes, the_bench_keeps_its_law};
pub use fault::RuleFault;
pub use lines::{Shape, Shapes};
pub use question::Question;
pub use rule::{Inference, Rule};
