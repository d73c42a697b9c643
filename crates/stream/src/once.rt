// A digest in one call.
ghost use Rattle.std.specs.Prelude.{◌≡◌, [], length};
ghost use Rattle.std.specs.List.{flat_map};
ghost use Rattle.blake2.specs.Width.{blake2b, blake2s};
ghost use Rattle.stream.specs.Examples.{abc, abc_b, abc_s};
ghost use Rattle.stream.specs.Hash.{digest};
ghost use Rattle.stream.specs.Streams.{digest_answer, digest_out};

use crate::Stream;
use blake2::Word;
use fault::Fault;

// The digest of pieces that are given one after another: that of the joined pieces, however these are cut.
pub fn digest_pieces<W: Word>(
    digest_len: usize,
    key: &[u8],
    pieces: &[&[u8]],
    out: &mut [u8],
) -> Result<u64, Fault>
    ensures answer { result ≡ digest_answer W.Word.width digest_len (length key.now) (length (flat_map (λ piece. piece.now) pieces.now)) (length out.old) }
    ensures out { out.new ≡ digest_out W.Word.width digest_len key.now (flat_map (λ piece. piece.now) pieces.now) out.old }
{
    Stream::<W>::check(digest_len, key)?;
    let mut stream = Stream::<W>::begin(digest_len, key);
    for piece in pieces {
        stream.add(piece)?;
    }
    stream.finish(out)
}

// The digest of one input: begin, one add and finish. Where one of these refuses, the output stays as it was.
pub fn digest<W: Word>(
    digest_len: usize,
    key: &[u8],
    input: &[u8],
    out: &mut [u8],
) -> Result<u64, Fault>
    ensures answer { result ≡ digest_answer W.Word.width digest_len (length key.now) (length input.now) (length out.old) }
    ensures out { out.new ≡ digest_out W.Word.width digest_len key.now input.now out.old }
{
    digest_pieces::<W>(digest_len, key, &[input], out)
}

// The definitions give the standard's own examples.
pub fn standard_examples_hold()
    ensures b { digest blake2b 64 [] abc ≡ abc_b }
    ensures s { digest blake2s 32 [] abc ≡ abc_s }
{}
