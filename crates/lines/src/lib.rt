// Texts made of named lines: each line is its name, a value and a line feed.
#![tactic(auto)]

mod line;
pub mod lines;
pub mod range;

pub use line::{end, fixed, hexadecimal, number, value};
pub use lines::Lines;
pub use range::Range;
