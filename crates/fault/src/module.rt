// The parts of the library that refusals belong to.
ghost use Rattle.fault.specs.Numbers.{name_of};
ghost use Rattle.std.specs.Prelude.{Some};

use std::fmt;

#[derive(Clone, Copy, PartialEq, Eq, Debug)]
pub enum Module {
    Stream,
    Hash,
    Label,
    Image,
    Seal,
    Check,
}

impl fmt::Display for Module {
    ghost output = { λ part. Some (name_of part) };

    fn fmt<W: fmt::Write>(&self, f: &mut fmt::Formatter<W>) -> fmt::Result {
        let name = match *self {
            Module::Stream => "stream",
            Module::Hash => "hash",
            Module::Label => "label",
            Module::Image => "image",
            Module::Seal => "seal",
            Module::Check => "check",
        };
        write!(f, "{name}")
    }
}
