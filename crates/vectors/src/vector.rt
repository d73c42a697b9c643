// One vector: VARIANT KEY INPUT DIGEST. KEY is a number of bytes, INPUT a number of bytes or the word abc; such bytes count 0, 1, 2 and so on.
use anyhow::Context;
use blake2::Variant;
use byte_strings::hex_string;
use std::alloc::{AllocError, Global};

// Prints the vector's digest and the verdict, and says whether it is right.
pub(crate) fn try_line(rt: &HostRuntime, line: &str) -> anyhow::Result<bool> {
    let heap = rt.alloc();
    let mut words = line.split_whitespace();
    let variant = words.next().context("the variant is missing")?;
    let key = words.next().context("the key's length is missing")?;
    let input = words.next().context("the input is missing")?;
    let published = words.next().context("the digest is missing")?;
    let key = counting(heap, key.parse::<usize>()?)?;
    let input = if input == "abc" {
        Vec::from_slice(heap, b"abc")?
    } else {
        counting(heap, input.parse::<usize>()?)?
    };
    let mut digest = vec![in heap; 0u8; published.len() / 2]?;
    // The variant that is read picks the type of words. Any other word counts as s.
    let answer = match Variant::try_from(variant.as_bytes()).unwrap_or(Variant::S) {
        Variant::B => stream::digest::<u64>(digest.len(), &key, &input, &mut digest),
        Variant::S => stream::digest::<u32>(digest.len(), &key, &input, &mut digest),
    };
    let text = hex_string(heap, &digest)?;
    let right = answer.is_ok() && text.as_str() == published;
    let (k, n) = (key.len(), input.len());
    let said = format!(in heap; "{variant}, key of {k}, input of {n}: {text}")?;
    report(rt, said.as_str(), right)
}

// Prints a digest with the verdict, and hands the verdict on.
pub(crate) fn report(rt: &HostRuntime, digest: &str, right: bool) -> anyhow::Result<bool> {
    if right {
        println!(rt; "{digest} as published")?;
    } else {
        println!(rt; "{digest} NOT as published")?;
    }
    Ok(right)
}

// The bytes 0, 1, 2 and so on, from 0 again after 255.
fn counting(heap: Global, n: usize) -> Result<Vec<u8>, AllocError> {
    (0..n).map(|i| (i % 256) as u8).collect(heap)
}
