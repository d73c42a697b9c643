// Why a call was refused: one record for the whole library, and one table of what can be in it.
#![tactic(auto)]

pub mod fault;
pub mod module;
pub mod refusal;

pub use fault::Fault;
pub use module::Module;
pub use refusal::Refusal;
