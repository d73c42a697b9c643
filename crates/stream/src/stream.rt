// A stream of bytes that is digested, and the calls on it.
ghost use Rattle.std.specs.Prelude.{◌≡◌, ℕ, ◌+◌, ◌^◌, ◌≤◌, List, length, Ok};
ghost use Rattle.std.specs.List.{concat};
ghost use Rattle.blake2.specs.Width.{longest};
ghost use Rattle.stream.specs.Hash.{sequential, digest, key_block};
ghost use Rattle.stream.specs.States.{count};
ghost use Rattle.stream.specs.Streams.{fresh, begin_answer, begun, add_answer, added, added_all, finish_answer, finished};

use crate::state::State;
use blake2::Word;
use fault::{Fault, Refusal};

// The most bytes that a stream takes.
pub(crate) const LIMIT: u64 = 0x100_0000_0000;

// `total` counts the bytes that were added; a key block is counted by the state alone.
#[derive(Drop)]
pub struct Stream<W: Word> {
    state: State<W>,
    total: u64,
    digest_len: usize,
    ghost digest: { digest_len ≤ longest W.Word.width },
    ghost counts: { count state ≤ total + 128 },
    ghost limit: { total ≤ 2 ^ 40 },
}

impl<W: Word> Stream<W> {
    ghost use Rattle.stream.specs.Views.{view_of};

    // Whether a stream can have this digest length and this key: 11 or 12 where it cannot.
    // They are two parameters in all calls: C's interface and the command line have them apart, and would make a struct of them for each call.
    pub fn check(digest_len: usize, key: &[u8]) -> Result<(), Fault>
        ensures { result ≡ begin_answer W.Word.width digest_len (length key.now) }
    {
        let longest = 8 * W::SIZE;
        if digest_len == 0 || digest_len > longest {
            return Err(Fault::new(Refusal::DigestLength, 0));
        }
        if key.len() > longest {
            return Err(Fault::new(Refusal::KeyLength, 0));
        }
        Ok(())
    }

    // A stream that gives `digest_len` bytes under a key, or under none where it is empty. Where the check refuses, one of digest length 1 and no key.
    pub fn begin(digest_len: usize, key: &[u8]) -> Stream<W>
        ensures { view_of result ≡ begun W.Word.width digest_len key.now }
    {
        if Self::check(digest_len, key).is_ok() {
            Self::start(digest_len, key)
        } else {
            Self::start(1, &[])
        }
    }

    // A stream that has taken nothing yet.
    fn start(digest_len: usize, key: &[u8]) -> Stream<W>
        requires { (digest_len ≤ longest W.Word.width) × (length key.now ≤ longest W.Word.width) }
        ensures { view_of result ≡ fresh W.Word.width digest_len key.now }
    {
        Stream {
            state: State::begin(&parameters(digest_len as u8, key.len() as u8), key),
            total: 0,
            digest_len,
        }
    }

    // The piece goes in: 13 where there would be more than 2^40 bytes in all, and then nothing changes.
    pub fn add(&mut self, piece: &[u8]) -> Result<(), Fault>
        ensures answer { result ≡ add_answer (view_of self.old) (length piece.now) }
        ensures after { view_of self.new ≡ added (view_of self.old) piece.now }
    {
        let n = piece.len() as u64;
        if n > LIMIT - self.total {
            return Err(Fault::new(Refusal::StreamLength, 0));
        }
        self.state.add(piece);
        self.total += n;
        Ok(())
    }

    // Writes the digest of all that went in, and says how many compressions it took. The stream is used up: also by 14, where the output is not as long as the digest, and stays as it was.
    // Whatever pieces were added since it was begun, the digest is the standard's, of the joined pieces.
    pub fn finish(self, out: &mut [u8]) -> Result<u64, Fault>
        ensures answer { result ≡ finish_answer (view_of self) (length out.old) }
        ensures out { out.new ≡ finished (view_of self) out.old }
        ensures joined { (d : ℕ) (key : List ℕ) (pieces : List (List ℕ)) → begin_answer W.Word.width d (length key) ≡ Ok tt → length (concat pieces) ≤ 2 ^ 40 → view_of self ≡ added_all (begun W.Word.width d key) pieces → length out.old ≡ d → out.new ≡ digest W.Word.width d key (concat pieces) }
    {
        if out.len() != self.digest_len {
            return Err(Fault::new(Refusal::DigestBuffer, 0));
        }
        let blocks = self.state.blocks();
        self.state.finish(false, out);
        Ok(blocks)
    }
}

// The parameter block of a stream.
#[tactic(auto, unfolding(blake2::specs::Bytes::pad))]
fn parameters(digest_len: u8, key_len: u8) -> [u8; 64]
    ensures { result ≡ sequential digest_len key_len }
{
    let mut p = [0u8; 64];
    p[0] = digest_len;
    p[1] = key_len;
    p[2] = 1;
    p[3] = 1;
    p
}
