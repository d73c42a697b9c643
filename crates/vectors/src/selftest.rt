// The standard's own test of an implementation: the digests of many inputs, with and without keys, digested in their turn.
use crate::vector::report;
use blake2::Word;
use byte_strings::hex_string;
use std::alloc::Global;
use stream::Stream;

const RESULT_B: &str = "c23a7800d98123bd10f506c61e29da5603d763b8bbad2e737f5e765a7bccd475";

const RESULT_S: &str = "6a411f08ce25adcdfb02aba641451cec53c598b24f4fc787fbdc88797f4c1dfe";

// Prints both results with the verdict, and says whether both are right.
pub(crate) fn try_both(rt: &HostRuntime) -> anyhow::Result<bool> {
    let b = try_one::<u64>(
        rt,
        "b",
        &[20, 32, 48, 64],
        &[0, 3, 128, 129, 255, 1024],
        RESULT_B,
    )?;
    let s = try_one::<u32>(
        rt,
        "s",
        &[16, 20, 28, 32],
        &[0, 3, 64, 65, 255, 1024],
        RESULT_S,
    )?;
    Ok(b && s)
}

// Digests every input at every digest length, and then all these digests.
fn try_one<W: Word>(
    rt: &HostRuntime,
    variant: &str,
    lengths: &[usize],
    inputs: &[usize],
    published: &str,
) -> anyhow::Result<bool> {
    let heap = rt.alloc();
    let mut all = Stream::<W>::begin(32, &[]);
    for length in lengths {
        for size in inputs {
            add_pair(heap, &mut all, *length, *size)?;
        }
    }
    let mut digest = [0u8; 32];
    all.finish(&mut digest)?;
    let text = hex_string(heap, &digest)?;
    let line = format!(in heap; "{variant}, self-test: {text}")?;
    report(rt, line.as_str(), text.as_str() == published)
}

// Adds two digests of an input: without a key, and with a key as long as the digest.
fn add_pair<W: Word>(
    heap: Global,
    all: &mut Stream<W>,
    length: usize,
    size: usize,
) -> anyhow::Result<()> {
    let mut input = vec![in heap; 0u8; size]?;
    let mut key = vec![in heap; 0u8; length]?;
    let mut digest = vec![in heap; 0u8; length]?;
    fill(&mut input);
    fill(&mut key);
    stream::digest::<W>(length, &[], &input, &mut digest)?;
    all.add(&digest)?;
    stream::digest::<W>(length, &key, &input, &mut digest)?;
    all.add(&digest)?;
    Ok(())
}

// The test's sequence of bytes: the top bytes of Fibonacci numbers that start from the length.
fn fill(out: &mut [u8]) {
    let mut a = ((out.len() % 0x1_0000_0000) as u32).wrapping_mul(0xdead4bad);
    let mut b = 1u32;
    for x in out.iter_mut() {
        let t = a.wrapping_add(b);
        a = b;
        b = t;
        *x = (t >> 24) as u8;
    }
}
