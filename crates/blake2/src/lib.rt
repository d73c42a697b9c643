// The core of BLAKE2, for 64-bit words (BLAKE2b) and 32-bit words (BLAKE2s): the compression function and the words that it works on.
// It is written and proved once, over the trait `Word`.
#![tactic(auto)]

mod compression;
mod schedule;
pub mod variant;
pub mod word;
pub mod words;

pub use schedule::schedule_holds_each_word_once;
pub use variant::Variant;
pub use word::Word;
pub use words::Words;
