// BLAKE2b and BLAKE2s as node hashes.
#![tactic(auto)]

mod examples;
pub mod node;
mod parameters;

pub use examples::parameter_blocks_hold;
pub use node::{Blake2Node, Blake2bNode, Blake2sNode};
