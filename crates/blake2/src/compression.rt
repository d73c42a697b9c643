// The compression function F, written as the standard has it.
ghost use Rattle.std.specs.Prelude.{◌≡◌, ◌<◌, ◌++◌, slice_index};
ghost use Rattle.blake2.specs.Compression.{add, turn, mix, round, xor_at, start, feed, compress};

use crate::schedule::{Row, rows};
use crate::{Word, Words};

// The places in a vector are numerals in each call, so a type for a place below 16 would only wrap them.
impl<W: Word> Words<W, 16> {
    // v[i] := v[i] + v[j] + x
    fn add(&mut self, i: usize, j: usize, x: W)
        requires { (i < 16) × (j < 16) }
        ensures { self.new ≡ add W.Word.width i j (W.Word.value x) self.old }
    {
        self.words[i] = self.words[i].plus(self.words[j]).plus(x);
    }

    // v[i] := (v[i] ^ v[j]) >>> k
    fn turn(&mut self, i: usize, j: usize, k: u32)
        requires { (i < 16) × ((j < 16) × (k < W.Word.width.bits)) }
        ensures { self.new ≡ turn W.Word.width i j k self.old }
    {
        self.words[i] = (self.words[i] ^ self.words[j]).right(k);
    }

    // The mixing function G.
    fn mix(&mut self, a: usize, b: usize, c: usize, d: usize, x: W, y: W)
        requires { (a < 16) × ((b < 16) × ((c < 16) × (d < 16))) }
        ensures { self.new ≡ mix W.Word.width a b c d (W.Word.value x) (W.Word.value y) self.old }
    {
        let [r1, r2, r3, r4] = W::ROTATIONS;
        self.add(a, b, x);
        self.turn(d, a, r1);
        self.add(c, d, W::ZERO);
        self.turn(b, c, r2);
        self.add(a, b, y);
        self.turn(d, a, r3);
        self.add(c, d, W::ZERO);
        self.turn(b, c, r4);
    }

    // The message word that a row of the schedule has at the place k.
    fn pick(&self, row: Row, k: usize) -> W
        requires { k < 16 }
        ensures { W.Word.value result ≡ slice_index self.now (slice_index row.entries.now k) }
    {
        self.words[row.entry(k)]
    }

    // One round: the columns, then the diagonals.
    #[tactic(auto, unfolding(crate::specs::Compression::round))]
    fn round(&mut self, m: &Words<W, 16>, row: Row)
        ensures { self.new ≡ round W.Word.width m.now row.entries.now self.old }
    {
        self.mix(0, 4, 8, 12, m.pick(row, 0), m.pick(row, 1));
        self.mix(1, 5, 9, 13, m.pick(row, 2), m.pick(row, 3));
        self.mix(2, 6, 10, 14, m.pick(row, 4), m.pick(row, 5));
        self.mix(3, 7, 11, 15, m.pick(row, 6), m.pick(row, 7));
        self.mix(0, 5, 10, 15, m.pick(row, 8), m.pick(row, 9));
        self.mix(1, 6, 11, 12, m.pick(row, 10), m.pick(row, 11));
        self.mix(2, 7, 8, 13, m.pick(row, 12), m.pick(row, 13));
        self.mix(3, 4, 9, 14, m.pick(row, 14), m.pick(row, 15));
    }

    // v[i] := v[i] ^ x
    fn xor_at(&mut self, i: usize, x: W)
        requires { i < 16 }
        ensures { self.new ≡ xor_at i (W.Word.value x) self.old }
    {
        self.words[i] = self.words[i] ^ x;
    }

    // The eight words of h, and then those of the initial value. Written out: two copies into a vector of zeros are slower (docs/SPEED.md).
    fn joined(h: &Words<W, 8>) -> Words<W, 16>
        ensures { result ≡ h.now ++ W.Word.width.iv }
    {
        let h = &h.words;
        let iv = W::IV;
        Words {
            words: [
                h[0], h[1], h[2], h[3], h[4], h[5], h[6], h[7], iv[0], iv[1], iv[2], iv[3], iv[4],
                iv[5], iv[6], iv[7],
            ],
        }
    }

    // The working vector before the first round.
    #[tactic(auto, unfolding(crate::specs::Compression::start))]
    fn start(h: &Words<W, 8>, t: u64, last: bool, node: bool) -> Words<W, 16>
        ensures { result ≡ start W.Word.width h.now t last node }
    {
        let mut v = Self::joined(h);
        v.xor_at(12, W::low(t));
        v.xor_at(13, W::high(t));
        v.xor_at(14, W::mask(last));
        v.xor_at(15, W::mask(node));
        v
    }
}

impl<W: Word> Words<W, 8> {
    // h[i] := h[i] ^ v[i] ^ v[i + 8], as the standard has it, by the index: after a loop over `iter_mut` no word is known, and a closure over all eight would need a clause that says the same again.
    fn feed(&mut self, v: &Words<W, 16>, i: usize)
        requires { i < 8 }
        ensures { self.new ≡ feed v.now i self.old }
    {
        self.words[i] = self.words[i] ^ v.words[i] ^ v.words[i + 8];
    }

    // The compression function: the block's words m go into the chain value.
    // `t` counts the bytes up to the block's end, `last` marks the final block, and `node` the final block of the last node of a layer.
    // The two flags are the standard's own. The hint keeps the loop over blocks in one piece (docs/SPEED.md).
    #[inline(always)]
    pub fn compress(&mut self, m: &Words<W, 16>, t: u64, last: bool, node: bool)
        ensures { self.new ≡ compress W.Word.width self.old m.now t last node }
    {
        let mut v = Words::start(self, t, last, node);
        for entries in rows(W::ROUNDS) {
            v.round(m, Row { entries });
        }
        for i in 0..8 {
            self.feed(&v, i);
        }
    }
}
