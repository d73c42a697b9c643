// One line at the front of a text, whatever its number is: a refusal names it, and nothing else goes by it.
ghost use Rattle.std.specs.Prelude.{◌≡◌, ◌==◌, position, ◌≤◌, [], length, IfOk, option_map};
ghost use Rattle.byte_strings.specs.Strings.{listed};
ghost use Rattle.lines.specs.Lines.{after, cut, cut_after, valued, fixed_line, number_line, read_bytes, read_line, Answers, end_answer};

use crate::Range;
use byte_strings::Bytes;
use fault::{Fault, Refusal};

// What stands after the name on a line, and what follows that line.
pub fn value<'a>(text: &'a [u8], line: usize, name: &[u8]) -> Result<(&'a [u8], &'a [u8]), Fault>
    ensures { Answers result (λ p. (p.0.now, p.1.now)) (valued line name.now text.now) }
{
    first_line(text, name).ok_or(Fault::new(Refusal::LineForm, line))
}

// A line that has nothing after its name; what follows it.
pub fn fixed<'a>(text: &'a [u8], line: usize, name: &[u8]) -> Result<&'a [u8], Fault>
    ensures { Answers result (λ rest. (tt, rest.now)) (read_line (fixed_line line name.now) text.now) }
{
    let (v, rest) = value(text, line, name)?;
    if !v.is_empty() {
        return Err(Fault::new(Refusal::LineForm, line));
    }
    Ok(rest)
}

// A line with a number of the range, and what follows it.
pub fn number<'a>(
    text: &'a [u8],
    line: usize,
    name: &[u8],
    range: Range,
) -> Result<(u16, &'a [u8]), Fault>
    ensures answer { Answers result (λ p. (p.0, p.1.now)) (read_line (number_line line name.now range) text.now) }
    ensures range { IfOk result (λ p. (range.low ≤ p.0) × (p.0 ≤ range.high)) }
{
    let (v, rest) = value(text, line, name)?;
    let n = number_in(v, line, range)?;
    Ok((n, rest))
}

// The number of the range that the value of a line says.
pub(crate) fn number_in(value: &[u8], line: usize, range: Range) -> Result<u16, Fault>
    ensures answer { result ≡ (number_line line [] range).read value.now }
    ensures range { IfOk result (λ n. (range.low ≤ n) × (n ≤ range.high)) }
{
    let n = byte_strings::number(value).ok_or(Fault::new(Refusal::LineForm, line))?;
    if !range.contains(n) {
        return Err(Fault::new(Refusal::NumberRange, line));
    }
    Ok(n)
}

// The `size` bytes whose hexadecimal digits are the value of a line.
pub fn hexadecimal<const N: usize>(
    value: &[u8],
    line: usize,
    size: usize,
) -> Result<Bytes<N>, Fault>
    ensures answer { Answers result listed (read_bytes line N size value.now) }
    ensures size { IfOk result (λ b. length (listed b) ≡ size) }
{
    let bytes = Bytes::from_hex(value).ok_or(Fault::new(Refusal::LineForm, line))?;
    if bytes.len() != size {
        return Err(Fault::new(Refusal::LineForm, line));
    }
    Ok(bytes)
}

// Refuses a text that has bytes left; the line with this number would begin with them.
pub fn end(text: &[u8], line: usize) -> Result<(), Fault>
    ensures { result ≡ end_answer line text.now }
{
    if !text.is_empty() {
        return Err(Fault::new(Refusal::BytesLeft, line));
    }
    Ok(())
}

// What stands after the name on the first line of a text, and what follows that line.
fn first_line<'a>(text: &'a [u8], name: &[u8]) -> Option<(&'a [u8], &'a [u8])>
    ensures { option_map (λ p. (p.0.now, p.1.now)) result ≡ cut_after (after name.now text.now) }
{
    cut_line(text.strip_prefix(name)?)
}

// The bytes before the first line feed, and those after it.
fn cut_line(text: &[u8]) -> Option<(&[u8], &[u8])>
    ensures { option_map (λ p. (p.0.now, p.1.now)) result ≡ cut text.now }
{
    let at = line_feed(text)?;
    Some((&text[..at], &text[at + 1..]))
}

// Where the first line feed is.
fn line_feed(text: &[u8]) -> Option<usize>
    ensures { result ≡ position (λ b. b == 10) text.now }
{
    text.iter().position(|b| *b == b'\n')
}
