// The C interface: numbers and byte buffers in, a number out. include/puligastru.h declares it.
#![tactic(auto)]

ghost use Rattle.std.specs.Prelude.{◌≡◌, length};
ghost use Rattle.blake2.specs.Width.{width_of};
ghost use Rattle.puligastru.specs.Numbers.{variant_of, status_of};
ghost use Rattle.stream.specs.Streams.{digest_answer, digest_out};

use blake2::Variant;
use fault::Fault;

// The variant that a number names: C passes no enum of ours.
fn variant_of(number: u32) -> Variant
    ensures { result ≡ variant_of number }
{
    if number == 0 { Variant::B } else { Variant::S }
}

// What C gets of an answer: a number, since it knows no `Result`.
fn status_of(answer: Result<u64, Fault>) -> u32
    ensures { result ≡ status_of answer }
{
    match answer {
        Ok(_) => 0,
        Err(fault) => u32::from(fault.number),
    }
}

// The digest of one buffer: 0 where it was written, else the refusal's number, and then `out` is as it was.
#[unsafe(no_mangle)]
pub extern "C" fn puligastru_digest(
    variant: u32,
    digest_bytes: usize,
    key: &[u8],
    input: &[u8],
    out: &mut [u8],
) -> u32
    ensures status { result ≡ status_of (digest_answer (width_of (variant_of variant)) digest_bytes (length key.now) (length input.now) (length out.old)) }
    ensures out { out.new ≡ digest_out (width_of (variant_of variant)) digest_bytes key.now input.now out.old }
{
    // A call for each variant: words are a type, and C names one by a number.
    match variant_of(variant) {
        Variant::B => status_of(stream::digest::<u64>(digest_bytes, key, input, out)),
        Variant::S => status_of(stream::digest::<u32>(digest_bytes, key, input, out)),
    }
}
