// Bytes of the chain value.
ghost use Rattle.std.specs.Prelude.{◌≡◌, ◌≤◌, length, take};
ghost use Rattle.blake2.specs.Bytes.{bytes_of};
ghost use Rattle.blake2.specs.Width.{longest};

use arrayvec::ArrayVec;
use blake2::{Word, Words};

// The bytes of the words.
fn spelled<W: Word>(h: &Words<W, 8>) -> ArrayVec<u8, 64>
    ensures bytes { result.items ≡ bytes_of W.Word.width h.now }
    ensures len { length result.items ≡ longest W.Word.width }
{
    let mut all = ArrayVec::new();
    for word in h.as_slice() {
        all.try_extend_from_slice(&word.bytes()[..W::SIZE]).unwrap();
    }
    all
}

// The first bytes of the chain value, as many as the output has.
pub(crate) fn put<W: Word>(h: &Words<W, 8>, out: &mut [u8])
    requires { length out.old ≤ longest W.Word.width }
    ensures { out.new ≡ take (length out.old) (bytes_of W.Word.width h.now) }
{
    let all = spelled(h);
    out.copy_from_slice(&all.as_slice()[..out.len()]);
}
