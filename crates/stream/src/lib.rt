// BLAKE2 streams: the digest of bytes that come in pieces.
#![tactic(auto)]

mod chain;
mod once;
mod output;
mod parameters;
mod state;
pub mod stream;

pub use once::{digest, digest_pieces, standard_examples_hold};
pub use parameters::hash;
pub use stream::Stream;
