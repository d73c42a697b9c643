// A hash under any parameter block, in one call.
ghost use Rattle.std.specs.Prelude.{◌≡◌, length};
ghost use Rattle.stream.specs.Hashes.{hash_answer, hash_out};

use crate::Stream;
use crate::state::State;
use crate::stream::LIMIT;
use blake2::Word;
use fault::{Fault, Refusal};

// Fills the output with the digest of the input under a parameter block and a key, or none where it is empty, and says how many compressions it took.
// `last_node` tells that it is the last node of its layer. 11, 12 or 13 where the output, the key or the input has no length that can be, and then the output stays as it was.
pub fn hash<W: Word>(
    parameters: &[u8; 64],
    last_node: bool,
    key: &[u8],
    input: &[u8],
    out: &mut [u8],
) -> Result<u64, Fault>
    ensures answer { result ≡ hash_answer W.Word.width (length key.now) (length input.now) (length out.old) }
    ensures out { out.new ≡ hash_out W.Word.width last_node parameters.now key.now input.now out.old }
{
    Stream::<W>::check(out.len(), key)?;
    if input.len() as u64 > LIMIT {
        return Err(Fault::new(Refusal::StreamLength, 0));
    }
    let mut state = State::<W>::begin(parameters, key);
    state.add(input);
    let blocks = state.blocks();
    state.finish(last_node, out);
    Ok(blocks)
}
