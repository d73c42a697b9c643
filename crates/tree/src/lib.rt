// Trees over images: their shape, what a node table holds, what each call on a seal does, and the law of every run.
// Code that carries out the calls stands in the crates above; what is proved here is about the definitions alone.
#![tactic(auto)]

pub mod answer;
mod examples;
mod laws;
pub mod shape;

pub use answer::{Answer, Reply, Worked};
pub use examples::small_run_holds;
pub use laws::{estimates_suffice, layers_end_at_the_root, runs_hold};
pub use shape::Shape;
