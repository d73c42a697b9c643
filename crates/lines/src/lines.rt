// A reader that takes named lines off the front of a text, one after another, and counts them from 1. `line` has the same for a line of any number.
ghost use Rattle.std.specs.Prelude.{◌≡◌, ◌+◌, ◌≤◌, length, IfOk};
ghost use Rattle.byte_strings.specs.Strings.{listed};
ghost use Rattle.fault.specs.Faults.{fault};
ghost use Rattle.lines.specs.Lines.{valued, fixed_line, number_line, bytes_line, read_line, Answers, end_answer};
ghost use Rattle.lines.specs.Reader.{value_of, past};

use crate::{Range, line};
use byte_strings::Bytes;
use fault::{Fault, Refusal};
use std::marker::Model;

// What is left of the text, and how many lines were taken off it.
#[derive(Debug, Drop)]
pub struct Lines<'a> {
    left: &'a [u8],
    taken: usize,
}

impl<'a> Model for Lines<'a> {
    ghost use Rattle.std.specs.Prelude.{◌+◌, ◌^◌, ◌<◌, length};
    ghost use Rattle.lines.specs.Reader.{Reader};

    ghost Value = { Reader };

    ghost view = { λ r. record { taken = r.taken; left = r.left.now } };

    ghost invariant = { λ r. r.taken + length r.left.now < 2 ^ 63 };
}

impl<'a> Lines<'a> {
    pub fn new(text: &'a [u8]) -> Lines<'a>
        ensures { result ≡ record { taken = 0; left = text.now } }
    {
        Lines {
            left: text,
            taken: 0,
        }
    }

    // How many bytes are left.
    pub fn bytes_left(&self) -> usize
        ensures { result ≡ length self.now.left }
    {
        self.left.len()
    }

    // A refusal of the line that was taken last.
    pub fn fault(&self, refusal: Refusal) -> Fault
        ensures { result ≡ fault refusal self.now.taken }
    {
        Fault::new(refusal, self.taken)
    }

    // Takes a line, and gives what stands after its name. A line with another name, or without a line feed, stays.
    pub fn value(&mut self, name: &[u8]) -> Result<&'a [u8], Fault>
        ensures answer { Answers result (λ v. v.now) (value_of (valued (self.old.taken + 1) name.now self.old.left)) }
        ensures after { self.new ≡ past name.now self.old }
    {
        let (value, rest) = line::value(self.left, self.taken + 1, name)?;
        self.left = rest;
        self.taken += 1;
        Ok(value)
    }

    // Takes a line that has nothing after its name.
    pub fn fixed(&mut self, name: &[u8]) -> Result<(), Fault>
        ensures answer { result ≡ value_of (read_line (fixed_line (self.old.taken + 1) name.now) self.old.left) }
        ensures after { self.new ≡ past name.now self.old }
    {
        if !self.value(name)?.is_empty() {
            return Err(self.fault(Refusal::LineForm));
        }
        Ok(())
    }

    // Takes a line with a number of the range.
    pub fn number(&mut self, name: &[u8], range: Range) -> Result<u16, Fault>
        ensures answer { result ≡ value_of (read_line (number_line (self.old.taken + 1) name.now range) self.old.left) }
        ensures range { IfOk result (λ n. (range.low ≤ n) × (n ≤ range.high)) }
        ensures after { self.new ≡ past name.now self.old }
    {
        let value = self.value(name)?;
        line::number_in(value, self.taken, range)
    }

    // Takes a line with the hexadecimal digits of `size` bytes.
    pub fn hexadecimal<const N: usize>(
        &mut self,
        name: &[u8],
        size: usize,
    ) -> Result<Bytes<N>, Fault>
        ensures answer { Answers result listed (value_of (read_line (bytes_line (self.old.taken + 1) name.now N size) self.old.left)) }
        ensures size { IfOk result (λ b. length (listed b) ≡ size) }
        ensures after { self.new ≡ past name.now self.old }
    {
        let value = self.value(name)?;
        line::hexadecimal(value, self.taken, size)
    }

    // Refuses bytes that are left, as the line that would begin with them.
    pub fn end(&self) -> Result<(), Fault>
        ensures { result ≡ end_answer (self.now.taken + 1) self.now.left }
    {
        line::end(self.left, self.taken + 1)
    }
}
