// The two variants of BLAKE2.
ghost use Rattle.std.specs.Prelude.{◌≡◌, [], ◌∷◌, Some, codes};
ghost use Rattle.std.specs.Result.{result_ok};
ghost use Rattle.blake2.specs.Variants.{letter, name_of, variant_of};
ghost use Rattle.blake2.specs.Width.{width_of};

use std::error::Error;
use std::fmt;

#[derive(Clone, Copy, PartialEq, Eq, Debug)]
pub enum Variant {
    B,
    S,
}

// Its full name.
impl fmt::Display for Variant {
    ghost output = { λ variant. Some (name_of variant) };

    fn fmt<W: fmt::Write>(&self, f: &mut fmt::Formatter<W>) -> fmt::Result {
        let name = match *self {
            Variant::B => "BLAKE2b",
            Variant::S => "BLAKE2s",
        };
        write!(f, "{name}")
    }
}

// A text that is not the letter of a variant.
#[derive(Clone, Copy, PartialEq, Eq, Debug)]
pub struct UnknownVariant;

// Written out, since a derive states no text in its contract.
impl fmt::Display for UnknownVariant {
    ghost output = { λ _. Some (codes "a variant is b or s") };

    fn fmt<W: fmt::Write>(&self, f: &mut fmt::Formatter<W>) -> fmt::Result {
        write!(f, "a variant is b or s")
    }
}

impl Error for UnknownVariant {}

impl TryFrom<&[u8]> for Variant {
    type Error = UnknownVariant;

    ghost try_from_gives = { λ text result. result_ok result ≡ variant_of text.now };

    fn try_from(text: &[u8]) -> Result<Variant, UnknownVariant> {
        match text {
            b"b" => Ok(Variant::B),
            b"s" => Ok(Variant::S),
            _ => Err(UnknownVariant),
        }
    }
}

impl Variant {
    // The letter that stands for it. A method, since a conversion to a number would not say that it is a letter.
    pub fn letter(self) -> u8
        ensures { result ∷ [] ≡ letter self }
    {
        match self {
            Variant::B => b'b',
            Variant::S => b's',
        }
    }

    // How many bytes a word has. The lengths of digests, keys, salts and layout names follow from it.
    pub fn word_size(self) -> usize
        ensures { result ≡ (width_of self).size }
    {
        match self {
            Variant::B => 8,
            Variant::S => 4,
        }
    }
}
