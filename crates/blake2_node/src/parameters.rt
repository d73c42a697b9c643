// The parameter block of a node.
ghost use Rattle.std.specs.Prelude.{◌≡◌, ℕ, ◌+◌, ◌≤◌, List, ◌++◌, length};
ghost use Rattle.blake2.specs.Bytes.{pad};
ghost use Rattle.label.specs.Meaning.{parts};
ghost use Rattle.blake2_node.specs.Parameters.{offset_length, zeros_length, parameter_block};

use blake2::Variant;
use label::Label;
use nodehash::Position;

// How many bytes the node offset has, and how many zeros stand before the salt.
fn lengths(variant: Variant) -> (usize, usize)
    ensures lengths { result ≡ (offset_length variant, zeros_length variant) }
    ensures short { (result.0 ≤ 8) × (result.1 ≤ 14) }
{
    match variant {
        Variant::B => (8, 14),
        Variant::S => (6, 0),
    }
}

// Puts a field after the `at` bytes that are there, and says where the next one goes. The block is no byte string: its `append` tests when it runs whether the field fits.
fn put(block: &mut [u8; 64], at: usize, field: &[u8]) -> usize
    requires { at + length field.now ≤ 64 }
    ensures next { result ≡ at + length field.now }
    ensures after { (front : List ℕ) → length front ≡ at → block.old ≡ pad 64 front → block.new ≡ pad 64 (front ++ field.now) }
{
    let end = at + field.len();
    block[at..end].copy_from_slice(field);
    end
}

// The parameter block of a node under a label.
pub(crate) fn parameter_block(label: &Label, position: Position) -> [u8; 64]
    ensures { result ≡ parameter_block (parts label.now) position }
{
    let (offset_length, zeros_length) = lengths(label.variant);
    let offset = u64::from(position.offset).to_le_bytes();
    let mut block = [0u8; 64];
    let at = put(
        &mut block,
        0,
        &[label.digest, label.key, label.fanout, label.depth],
    );
    let at = put(&mut block, at, &u32::from(label.page).to_le_bytes());
    let at = put(&mut block, at, &offset[..offset_length]);
    let at = put(&mut block, at, &[position.depth, label.digest]);
    let at = put(&mut block, at, &[0u8; 14][..zeros_length]);
    let at = put(&mut block, at, label.salt.as_slice());
    put(&mut block, at, label.layout.as_slice());
    block
}
