// Why bytes were not put into a byte string.
ghost use Rattle.std.specs.Prelude.{Some, codes};

use std::error::Error;
use std::fmt;

// The bytes would be more than the string can hold.
#[derive(Clone, Copy, PartialEq, Eq, Debug)]
pub struct TooLong;

// Written out, since a derive states no text in its contract.
impl fmt::Display for TooLong {
    ghost output = { λ _. Some (codes "more bytes than the byte string can hold") };

    fn fmt<W: fmt::Write>(&self, f: &mut fmt::Formatter<W>) -> fmt::Result {
        write!(f, "more bytes than the byte string can hold")
    }
}

impl Error for TooLong {}
