// The chain value, and the blocks that go into it.
ghost use Rattle.std.specs.Prelude.{◌≡◌, ℕ, ◌+◌, ◌*◌, ◌%◌, ◌^◌, ◌<◌, ◌≤◌, Bool, List, ◌++◌, bit_xor, slice_index, length, take, drop};
ghost use Rattle.blake2.specs.Bytes.{word_at, words_of};
ghost use Rattle.blake2.specs.Compression.{compress};
ghost use Rattle.blake2.specs.Width.{block_size};
ghost use Rattle.stream.specs.Hash.{ended, initial};

use blake2::{Word, Words};
use std::array;

// `t` counts the bytes that went into the chain value h.
#[derive(Drop)]
pub struct Chain<W: Word> {
    pub(crate) h: Words<W, 8>,
    pub(crate) t: u64,
}

impl<W: Word> Chain<W> {
    // The first chain value: IV xor the words of the parameter block.
    pub(crate) fn begin(p: &[u8; 64]) -> Chain<W>
        ensures value { result.h ≡ initial W.Word.width p.now }
        ensures none { result.t ≡ 0 }
    {
        let words = array::from_fn(
            |i| -> W
                requires { i < 8 }
                ensures { W.Word.value result ≡ bit_xor (slice_index W.Word.width.iv i) (word_at W.Word.width p.entry.now i) }
            { W::IV[i] ^ word_at(p, i) },
        );
        Chain {
            h: Words::new(words),
            t: 0,
        }
    }

    // Whole blocks go in, where more is to follow.
    pub(crate) fn absorb(&mut self, bytes: &[u8])
        requires whole { length bytes.now % block_size W.Word.width ≡ 0 }
        requires few { self.old.t + length bytes.now < 2 ^ 63 }
        ensures count { self.new.t ≡ self.old.t + length bytes.now }
        ensures means { (node : Bool) (rest : List ℕ) → 0 < length rest → ended W.Word.width node self.new.t rest self.new.h ≡ ended W.Word.width node self.old.t (bytes.now ++ rest) self.old.h }
    {
        let size = block_bytes::<W>();
        for block in bytes.chunks_exact(size) {
            self.compress(block, size, false, false);
        }
    }

    // A block goes in that has n bytes, and zeros after them: the words are made from all of it, and the counter goes by n.
    #[inline(always)]
    pub(crate) fn compress(&mut self, block: &[u8], n: usize, last: bool, node: bool)
        requires { (block_size W.Word.width ≤ length block.now) × (self.old.t + n < 2 ^ 63) }
        ensures count { self.new.t ≡ self.old.t + n }
        ensures value { self.new.h ≡ compress W.Word.width self.old.h (words_of W.Word.width 16 block.now) (self.old.t + n) last node }
    {
        self.t += n as u64;
        self.h.compress(&words(block), self.t, last, node);
    }
}

// The bytes of a block.
pub(crate) fn block_bytes<W: Word>() -> usize
    ensures size { result ≡ block_size W.Word.width }
    ensures some { 0 < result }
    ensures most { result ≤ 128 }
{
    16 * W::SIZE
}

// The sixteen words of a block.
fn words<W: Word>(block: &[u8]) -> Words<W, 16>
    requires { block_size W.Word.width ≤ length block.now }
    ensures { result ≡ words_of W.Word.width 16 block.now }
{
    Words::new(array::from_fn(
        |i| -> W
            requires { W.Word.width.size * i + W.Word.width.size ≤ length block.now }
            ensures { W.Word.value result ≡ word_at W.Word.width block.entry.now i }
        { word_at(block, i) },
    ))
}

// The i-th word of the bytes.
fn word_at<W: Word>(bytes: &[u8], i: usize) -> W
    requires { W.Word.width.size * i + W.Word.width.size ≤ length bytes.now }
    ensures { W.Word.value result ≡ word_at W.Word.width bytes.now i }
{
    let at = W::SIZE * i;
    let mut word = [0u8; 8];
    word[..W::SIZE].copy_from_slice(&bytes[at..at + W::SIZE]);
    W::load(word)
}
