// The state of a hash: the chain value, and the bytes that wait.
// The last block is compressed otherwise than the others, so a block goes in only once a byte after it has come.
ghost use Rattle.std.specs.Prelude.{◌≡◌, ℕ, ◌+◌, ◌^◌, ◌<◌, ◌≤◌, Bool, List, [], ◌++◌, length, take};
ghost use Rattle.blake2.specs.Bytes.{bytes_of};
ghost use Rattle.blake2.specs.Width.{block_size, longest};
ghost use Rattle.stream.specs.Hash.{initial, key_block, before};

use crate::chain::{Chain, block_bytes};
use crate::output::put;
use blake2::Word;

// The first `filled` bytes of `wait` are those that wait. They are no `ArrayVec`: the calls that put bytes into one test its capacity when they run, and here it is proved that the bytes fit.
#[derive(Drop)]
pub struct State<W: Word> {
    chain: Chain<W>,
    wait: [u8; 128],
    filled: usize,
    ghost room: { filled ≤ block_size W.Word.width },
    ghost few: { chain.t + filled ≤ 2 ^ 41 },
}

impl<W: Word> State<W> {
    ghost use Rattle.stream.specs.States.{count, meaning};

    // Nothing has gone in but the key, as a block of its own.
    pub(crate) fn begin(p: &[u8; 64], key: &[u8]) -> State<W>
        requires { length key.now ≤ longest W.Word.width }
        ensures filled { result.filled ≡ length (key_block W.Word.width key.now) }
        ensures waits { take result.filled result.wait ≡ key_block W.Word.width key.now }
        ensures none { result.chain.t ≡ 0 }
        ensures value { result.chain.h ≡ initial W.Word.width p.now }
    {
        let mut wait = [0; 128];
        let mut filled = 0;
        if !key.is_empty() {
            wait[..key.len()].copy_from_slice(key);
            filled = block_bytes::<W>();
        }
        State {
            chain: Chain::begin(p),
            wait,
            filled,
        }
    }

    // The part goes behind the bytes that wait.
    fn fill(&mut self, part: &[u8])
        requires room { self.old.filled + length part.now ≤ block_size W.Word.width }
        requires few { count self.old + length part.now ≤ 2 ^ 41 }
        ensures filled { self.new.filled ≡ self.old.filled + length part.now }
        ensures waits { take self.new.filled self.new.wait ≡ take self.old.filled self.old.wait ++ part.now }
        ensures chain { self.new.chain ≡ self.old.chain }
    {
        let end = self.filled + part.len();
        self.wait[self.filled..end].copy_from_slice(part);
        self.filled = end;
    }

    // The piece goes in.
    pub(crate) fn add(&mut self, piece: &[u8])
        requires { count self.old + length piece.now ≤ 2 ^ 41 }
        ensures count { count self.new ≡ count self.old + length piece.now }
        ensures means { (node : Bool) (rest : List ℕ) → meaning self.new node rest ≡ meaning self.old node (piece.now ++ rest) }
    {
        let size = block_bytes::<W>();
        let room = size - self.filled;
        if piece.len() <= room {
            self.fill(piece);
            return;
        }
        let (front, more) = piece.split_at(room);
        self.fill(front);
        self.chain.absorb(&self.wait[..size]);
        self.filled = 0;
        let (whole, rest) = more.split_at((more.len() - 1) / size * size);
        self.chain.absorb(whole);
        self.fill(rest);
    }

    // The digest of all that went in, as many bytes as the output has.
    pub(crate) fn finish(self, node: bool, out: &mut [u8])
        requires { length out.old ≤ longest W.Word.width }
        ensures { out.new ≡ take (length out.old) (bytes_of W.Word.width (meaning self node [])) }
    {
        let State {
            mut chain,
            wait,
            filled,
        } = self;
        let mut last = [0u8; 128];
        last[..filled].copy_from_slice(&wait[..filled]);
        chain.compress(&last[..block_bytes::<W>()], filled, true, node);
        put(&chain.h, out);
    }

    // How many compressions the digest takes that a finish would give now.
    pub(crate) fn blocks(&self) -> u64
        ensures { result ≡ before W.Word.width (count self.now) + 1 }
    {
        let all = self.chain.t + self.filled as u64;
        all.saturating_sub(1) / block_bytes::<W>() as u64 + 1
    }
}
