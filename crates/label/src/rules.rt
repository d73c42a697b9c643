// What the fields of a label may be.
ghost use Rattle.std.specs.Prelude.{◌≡◌, ◌≤◌, ◌&&◌, [], ◌∷◌, length};
ghost use Rattle.label.specs.Rules.{digest_range, key_range, salt_length_of, layout_byte, are_layout_bytes, layout_name};

use blake2::Variant;
use lines::Range;

pub(crate) const FANOUT: Range = Range { low: 2, high: 16 };

pub(crate) const DEPTH: Range = Range { low: 2, high: 13 };

pub(crate) const PAGE: Range = Range {
    low: 64,
    high: 4096,
};

// The longest digest, and the longest key.
fn longest(variant: Variant) -> u16
    ensures { result ≡ (key_range variant).high }
{
    8 * variant.word_size() as u16
}

// Digest and key have a range each, as they have a rule each; one function of both would take the lower end from its caller.
pub(crate) fn digest_range(variant: Variant) -> Range
    ensures { result ≡ digest_range variant }
{
    Range {
        low: 1,
        high: longest(variant),
    }
}

pub(crate) fn key_range(variant: Variant) -> Range
    ensures { result ≡ key_range variant }
{
    Range {
        low: 0,
        high: longest(variant),
    }
}

// The length of a salt, and that of the longest layout name.
pub(crate) fn salt_length(variant: Variant) -> usize
    ensures { (result ≡ salt_length_of variant) × (result ≤ 16) }
{
    2 * variant.word_size()
}

// A-Z, 0-9 and hyphen.
fn is_layout_byte(c: u8) -> bool
    ensures { result ≡ layout_byte c }
{
    matches!(c, b'A'..=b'Z' | b'0'..=b'9' | b'-')
}

fn are_layout_bytes(name: &[u8]) -> bool
    ensures { result ≡ are_layout_bytes name.now }
{
    name.iter().all(|c| is_layout_byte(*c))
}

pub(crate) fn is_layout_name(variant: Variant, name: &[u8]) -> bool
    ensures { result ≡ layout_name variant name.now }
{
    !name.is_empty() && name.len() <= salt_length(variant) && are_layout_bytes(name)
}
