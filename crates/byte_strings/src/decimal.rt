// Numbers as decimal text.
ghost use Rattle.std.specs.Prelude.{◌≡◌, decimal};
ghost use Rattle.byte_strings.specs.Decimal.{leading_zero, numbered};
ghost use Rattle.byte_strings.specs.Strings.{listed, append_answer, appended};

use crate::{Bytes, TooLong};
use itoa::Buffer;

// The number that one to four digits write, with no leading zero except in 0 itself. The library's `parse` takes leading zeros and a sign too.
pub fn number(digits: &[u8]) -> Option<u16>
    ensures { result ≡ numbered digits.now }
{
    if digits.is_empty() || digits.len() > 4 || has_leading_zero(digits) {
        return None;
    }
    let mut n = 0;
    for d in digits {
        if !d.is_ascii_digit() {
            return None;
        }
        n = 10 * n + u16::from(*d - b'0');
    }
    Some(n)
}

// Whether the first of several digits is 0.
fn has_leading_zero(digits: &[u8]) -> bool
    ensures { result ≡ leading_zero digits.now }
{
    digits.len() > 1 && digits[0] == b'0'
}

impl<const N: usize> Bytes<N> {
    // Adds the digits of n, all or none, as `append` does.
    pub fn append_decimal(&mut self, n: u16) -> Result<(), TooLong>
        ensures answer { result ≡ append_answer N (listed self.old) (decimal n) }
        ensures after { listed self.new ≡ appended N (listed self.old) (decimal n) }
    {
        self.append(Buffer::new().format(n).as_bytes())
    }
}
