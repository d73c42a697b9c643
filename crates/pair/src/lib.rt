// Two images as one.
#![tactic(auto)]

pub mod pair;

pub use pair::Pair;
