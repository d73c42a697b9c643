// Node hashes: what gives each node of a tree its digest.
#![tactic(auto)]

pub mod interface;
pub mod position;

pub use interface::NodeHash;
pub use position::Position;
