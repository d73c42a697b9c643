// The label of a seal: what its tree is hashed with, and the nine lines of text that say it.
#![tactic(auto)]

mod equality;
mod examples;
pub mod label;
mod making;
mod reading;
mod rules;
mod writing;

pub use equality::equality_is_identity;
pub use examples::label_examples_hold;
pub use label::Label;
