// A node hash by BLAKE2: a label and a key, and the digests of nodes under them.
ghost use Rattle.std.specs.Prelude.{◌≡◌};
ghost use Rattle.byte_strings.specs.Strings.{listing, within};
ghost use Rattle.blake2_node.specs.Meaning.{hashing};
ghost use Rattle.blake2_node.specs.Nodes.{key_at, key_bytes};

use crate::parameters::parameter_block;
use blake2::Word;
use byte_strings::Bytes;
use fault::{Fault, Refusal};
use label::Label;
use nodehash::{NodeHash, Position};
use std::marker::PhantomData;

// The longest input of a node.
const LONGEST_INPUT: usize = 4096;

// It has what it was made from, and whether that fits is asked at each call. A key of more than 64 bytes is none.
#[derive(Drop)]
pub struct Blake2Node<W> {
    label: Label,
    key: Option<Bytes<64>>,
    word: PhantomData<W>,
}

pub type Blake2bNode = Blake2Node<u64>;

pub type Blake2sNode = Blake2Node<u32>;

impl<W: Word> Blake2Node<W> {
    // The node hash with this label and this key. Where the label is of the other variant, or the key has not the length that it says, it is unfit: its digests are zeros, and take no blocks.
    pub fn new(label: Label, key: &[u8]) -> Blake2Node<W>
        ensures { hashing W.Word.width result.label (listing result.key) ≡ hashing W.Word.width label (within 64 key.now) }
    {
        Blake2Node {
            label,
            key: Bytes::try_from(key).ok(),
            word: PhantomData,
        }
    }

    // The key that goes before the input of a node of this depth.
    fn key_at(&self, depth: u8) -> &[u8]
        ensures { result.now ≡ key_at (key_bytes (listing self.now.key)) depth }
    {
        match &self.key {
            Some(key) if depth == 0 => key.as_slice(),
            _ => &[],
        }
    }
}

impl<W: Word> NodeHash for Blake2Node<W> {
    ghost meaning = { λ s. hashing W.Word.width s.label (listing s.key) };

    fn label(&self) -> Label {
        self.label
    }

    fn is_fit(&self) -> bool {
        W::SIZE == self.label.variant.word_size()
            && self
                .key
                .as_ref()
                .is_some_and(|key| key.len() == usize::from(self.label.key))
    }

    fn hash(
        &self,
        position: Position,
        last: bool,
        input: &[u8],
        out: &mut [u8],
    ) -> Result<u64, Fault> {
        if input.len() > LONGEST_INPUT || out.len() != usize::from(self.label.digest) {
            return Err(Fault::new(Refusal::NodeInput, 0));
        }
        if !self.is_fit() {
            out.fill(0);
            return Ok(0);
        }
        let parameters = parameter_block(&self.label, position);
        stream::hash::<W>(&parameters, last, self.key_at(position.depth), input, out)
    }
}
