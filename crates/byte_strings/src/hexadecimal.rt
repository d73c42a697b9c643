// Bytes as hexadecimal text: two lower-case digits to a byte, the high one first.
ghost use Rattle.std.specs.Prelude.{◌≡◌, ◌<◌, IfSome};
ghost use Rattle.std.specs.Char.{digit_char};
ghost use Rattle.byte_strings.specs.Hexadecimal.{hex, nibble, hex_within};
ghost use Rattle.byte_strings.specs.Strings.{listed, listing, append_answer, appended};

use crate::{Bytes, TooLong};

impl<const N: usize> Bytes<N> {
    // The bytes that pairs of hexadecimal digits write, where N are enough. The crate `hex` reads capitals too.
    pub fn from_hex(digits: &[u8]) -> Option<Bytes<N>>
        ensures { listing result ≡ hex_within N digits.now }
    {
        if digits.len() % 2 != 0 || digits.len() / 2 > N {
            return None;
        }
        let mut bytes = Bytes::new();
        for pair in digits.chunks_exact(2) {
            let high = hex_digit(pair[0])?;
            let low = hex_digit(pair[1])?;
            bytes.push(16 * high + low);
        }
        Some(bytes)
    }

    // Adds the hexadecimal digits of the bytes, all or none, as `append` does.
    pub fn append_hex(&mut self, bytes: &[u8]) -> Result<(), TooLong>
        ensures answer { result ≡ append_answer N (listed self.old) (hex bytes.now) }
        ensures after { listed self.new ≡ appended N (listed self.old) (hex bytes.now) }
    {
        if bytes.len() > (N - self.len()) / 2 {
            return Err(TooLong);
        }
        // The crate `hex` would be no plainer here: its answer has a refusal of its own to rule out.
        for b in bytes {
            self.push(hex_char(*b / 16));
            self.push(hex_char(*b % 16));
        }
        Ok(())
    }
}

// The value of a lower-case hexadecimal digit.
fn hex_digit(c: u8) -> Option<u8>
    ensures value { result ≡ nibble c }
    ensures small { IfSome result (λ d. d < 16) }
{
    match c {
        b'0'..=b'9' => Some(c - b'0'),
        b'a'..=b'f' => Some(c - b'a' + 10),
        _ => None,
    }
}

// The lower-case hexadecimal digit of a number below 16.
fn hex_char(d: u8) -> u8
    requires { d < 16 }
    ensures { result ≡ digit_char d }
{
    if d < 10 { b'0' + d } else { b'a' + (d - 10) }
}
