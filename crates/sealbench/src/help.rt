// What sealbench can do, in a screenful.
use crate::failure::Failure;

const TEXT: &str = "sealbench: BLAKE2 tree seals for calibration images

  sealbench                              run an example and print what it does
  sealbench digest [OPTIONS] FILE...     print a digest line for each file, as b2sum does
  sealbench label FILE                   say what the label in FILE says, or which line is refused and why
  sealbench help                         print this text

Options of digest:
  --variant b|s    BLAKE2b (the default) or BLAKE2s
  --bytes N        the digest's length: 1 to 64 (b, default 64) or 1 to 32 (s, default 32)
  --key FILE       the key is what FILE holds: at most 64 bytes (b) or 32 bytes (s)

For digest, the file - is the standard input. The status is 0 if all was done, else 1.";

pub(crate) fn print(rt: &HostRuntime) -> Result<(), Failure> {
    println!(rt; "{TEXT}")?;
    Ok(())
}
