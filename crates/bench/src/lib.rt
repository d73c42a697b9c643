// Images in byte buffers: one on a bench that can be written, and a dump of a chip.
#![tactic(auto)]

pub mod bench;
mod cut;
pub mod dump;

pub use bench::BenchImage;
pub use dump::ChipDump;
