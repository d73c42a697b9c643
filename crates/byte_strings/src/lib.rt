// Byte strings of at most N bytes, held in place, and numbers and bytes as decimal and hexadecimal text.
#![tactic(auto)]

pub mod bytes;
mod decimal;
pub mod error;
mod hexadecimal;
mod methods;
mod text;

pub use bytes::Bytes;
pub use decimal::number;
pub use error::TooLong;
pub use methods::equality_is_identity;
pub use text::hex_string;
