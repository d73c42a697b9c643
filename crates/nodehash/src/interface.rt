// What every node hash can do.
ghost use Rattle.std.specs.Prelude.{◌≡◌, length};
ghost use Rattle.label.specs.Meaning.{parts};
ghost use Rattle.nodehash.specs.Answers.{hash_answer, hash_out};
ghost use Rattle.nodehash.specs.Hashing.{Hashing};

use crate::Position;
use fault::Fault;
use label::Label;

pub trait NodeHash {
    // The label and the function that it stands for.
    ghost meaning: { Self → Hashing };

    fn label(&self) -> Label
        ensures { parts result ≡ (meaning self.now).label };

    // Whether it can hash under its label.
    fn is_fit(&self) -> bool
        ensures { result ≡ (meaning self.now).fit };

    // Writes the digest of a node into `out`, which must be as long as the digest, and says how many blocks it took.
    // `last` tells that the node is the last of its layer, which its position alone does not. The input is a page, or the joined digests of the nodes below.
    fn hash(
        &self,
        position: Position,
        last: bool,
        input: &[u8],
        out: &mut [u8],
    ) -> Result<u64, Fault>
        ensures answer { result ≡ hash_answer (meaning self.now) position (length input.now) (length out.old) }
        ensures out { out.new ≡ hash_out (meaning self.now) position last input.now out.old };
}
