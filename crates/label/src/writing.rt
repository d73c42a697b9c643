// Writing the text of a label. It is bytes in fixed memory, and no `Display`: salt and layout are bytes, which a formatter takes as text alone.
ghost use Rattle.std.specs.Prelude.{◌≡◌, ◌+◌, ◌<◌, ◌≤◌, [], ◌++◌, length, decimal};
ghost use Rattle.byte_strings.specs.Hexadecimal.{hex};
ghost use Rattle.byte_strings.specs.Strings.{listed};
ghost use Rattle.lines.specs.Lines.{line_then};
ghost use Rattle.label.specs.Labels.{write_answer, written};
ghost use Rattle.label.specs.Meaning.{parts, label_text};

use crate::Label;
use byte_strings::Bytes;
use fault::{Fault, Refusal};

// Room for the nine lines, with five digits to a number.
const ROOM: usize = 146;

// Adds a line.
fn put(out: &mut Bytes<ROOM>, name: &[u8], value: &[u8])
    requires { length (listed out.old) + length name.now + length value.now < 146 }
    ensures length { length (listed out.new) ≤ length (listed out.old) + length name.now + length value.now + 1 }
    ensures bytes { listed out.new ≡ listed out.old ++ line_then name.now value.now [] }
{
    out.append(name).unwrap();
    out.append(value).unwrap();
    out.append(b"\n").unwrap();
}

// A number in decimal digits.
fn decimal(n: u16) -> Bytes<5>
    ensures digits { listed result ≡ decimal n }
    ensures length { length (listed result) ≤ 5 }
{
    let mut digits = Bytes::new();
    digits.append_decimal(n).unwrap();
    digits
}

// Up to 16 bytes in hexadecimal digits.
fn hexadecimal(bytes: &[u8]) -> Bytes<32>
    requires { length bytes.now ≤ 16 }
    ensures digits { listed result ≡ hex bytes.now }
    ensures length { length (listed result) ≤ 32 }
{
    let mut digits = Bytes::new();
    digits.append_hex(bytes).unwrap();
    digits
}

impl Label {
    // The nine lines.
    pub fn text(&self) -> Bytes<ROOM>
        ensures { listed result ≡ label_text self.now }
    {
        let mut out = Bytes::new();
        put(&mut out, b"kind=seal", b"");
        put(&mut out, b"variant=", &[self.variant.letter()]);
        put(
            &mut out,
            b"digest=",
            decimal(u16::from(self.digest)).as_slice(),
        );
        put(
            &mut out,
            b"keybytes=",
            decimal(u16::from(self.key)).as_slice(),
        );
        put(
            &mut out,
            b"fanout=",
            decimal(u16::from(self.fanout)).as_slice(),
        );
        put(
            &mut out,
            b"depth=",
            decimal(u16::from(self.depth)).as_slice(),
        );
        put(&mut out, b"page=", decimal(self.page).as_slice());
        let salt = hexadecimal(self.salt.as_slice());
        put(&mut out, b"salt=", salt.as_slice());
        put(&mut out, b"layout=", self.layout.as_slice());
        out
    }

    // Writes the text to the front of the buffer, and says how long it is. 24, and the buffer as it was, where the text does not fit.
    pub fn write(&self, out: &mut [u8]) -> Result<usize, Fault>
        ensures answer { result ≡ write_answer (parts self.now) out.old }
        ensures after { out.new ≡ written (parts self.now) out.old }
    {
        let text = self.text();
        let n = text.len();
        if out.len() < n {
            return Err(Fault::new(Refusal::LabelBuffer, 0));
        }
        out[0..n].copy_from_slice(text.as_slice());
        Ok(n)
    }
}
