// Images: pages of bytes, whatever holds them.
#![tactic(auto)]

pub mod extent;
pub mod interface;
pub mod lent;
pub mod state;

pub use extent::Extent;
pub use interface::{EditableImage, Image};
pub use lent::Lent;
pub use state::{PageState, StrangeState};
