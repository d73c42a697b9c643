// The command digest: a line for each file.
use crate::failure::Failure;
use crate::options::DigestOptions;
use blake2::{Variant, Word};
use byte_strings::hex_string;
use std::fs;
use std::fs::File;
use std::io::Read;
use stream::Stream;

// How many bytes are read at a time.
const PIECE: usize = 65536;

// Digests every file, also after one that fails: so whether one failed is kept, and no failure.
pub(crate) fn run(rt: &HostRuntime, options: &DigestOptions) -> Result<(), Failure> {
    let key = match &options.key {
        Some(file) => fs::read(rt, file.as_str())?,
        None => Vec::new(rt.alloc()),
    };
    let mut failed = false;
    for file in options.files.iter() {
        if let Err(failure) = print_line(rt, options, &key, file.as_str()) {
            eprintln!(rt; "sealbench: {file}: {failure}")?;
            failed = true;
        }
    }
    if failed {
        return Err(Failure::Told);
    }
    Ok(())
}

// One line: the digest in hexadecimal digits, two blanks and the file's name.
fn print_line(
    rt: &HostRuntime,
    options: &DigestOptions,
    key: &[u8],
    file: &str,
) -> Result<(), Failure> {
    let text = match options.variant {
        Variant::B => digest_text::<u64>(rt, options.bytes, key, file)?,
        Variant::S => digest_text::<u32>(rt, options.bytes, key, file)?,
    };
    println!(rt; "{text}  {file}")?;
    Ok(())
}

// The digits of a digest of so many bytes, or of as many as there can be.
fn digest_text<W: Word>(
    rt: &HostRuntime,
    bytes: Option<usize>,
    key: &[u8],
    file: &str,
) -> Result<String, Failure> {
    let heap = rt.alloc();
    let bytes = bytes.unwrap_or(8 * W::SIZE);
    Stream::<W>::check(bytes, key)?;
    let mut digest = vec![in heap; 0u8; bytes]?;
    digest_file(rt, Stream::<W>::begin(bytes, key), file, &mut digest)?;
    Ok(hex_string(heap, &digest)?)
}

fn digest_file<W: Word>(
    rt: &HostRuntime,
    stream: Stream<W>,
    file: &str,
    out: &mut [u8],
) -> Result<(), Failure> {
    if file == "-" {
        return digest_all(rt, stream, &mut rt.stdin(), out);
    }
    digest_all(rt, stream, &mut File::open(rt, file)?, out)
}

// Adds all that there is to read, piece by piece, and finishes. The count only bounds the loop: no proof knows that a file ends.
fn digest_all<W: Word, R: Read>(
    rt: &HostRuntime,
    mut stream: Stream<W>,
    from: &mut R,
    out: &mut [u8],
) -> Result<(), Failure> {
    let mut piece = vec![in rt.alloc(); 0u8; PIECE]?;
    for _ in 0..u64::MAX {
        let n = from.read(&mut piece)?;
        if n == 0 {
            break;
        }
        stream.add(&piece[0..n])?;
    }
    stream.finish(out)?;
    Ok(())
}
