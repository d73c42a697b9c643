// Reading a label from its text.
ghost use Rattle.std.specs.Prelude.{◌≡◌, ℕ, ◌+◌, true, length, IfOk, Ok};
ghost use Rattle.byte_strings.specs.Strings.{listed};
ghost use Rattle.lines.specs.Lines.{read_line, then, Answers};
ghost use Rattle.lines.specs.Reader.{value_of, past};
ghost use Rattle.label.specs.Labels.{variant_line, layout_line, label_lines, front_answer, read_answer};
ghost use Rattle.label.specs.Meaning.{parts, meant, label_text, Exactly, Begins};
ghost use Rattle.label.specs.Rules.{layout_name};

use crate::{Label, rules};
use blake2::Variant;
use byte_strings::Bytes;
use fault::{Fault, Refusal};
use lines::Lines;

// Takes the line with a variant.
fn variant(lines: &mut Lines<'_>, name: &[u8]) -> Result<Variant, Fault>
    ensures answer { result ≡ value_of (read_line (variant_line (lines.old.taken + 1) name.now) lines.old.left) }
    ensures after { lines.new ≡ past name.now lines.old }
{
    let letter = lines.value(name)?;
    Variant::try_from(letter)
        .ok()
        .ok_or(lines.fault(Refusal::LineForm))
}

// Takes the line with a layout name.
fn layout(lines: &mut Lines<'_>, name: &[u8], variant: Variant) -> Result<Bytes<16>, Fault>
    ensures answer { Answers result listed (value_of (read_line (layout_line (lines.old.taken + 1) name.now variant) lines.old.left)) }
    ensures rules { IfOk result (λ b. layout_name variant (listed b) ≡ true) }
    ensures after { lines.new ≡ past name.now lines.old }
{
    let value = lines.value(name)?;
    if !rules::is_layout_name(variant, value) {
        return Err(lines.fault(Refusal::LineForm));
    }
    Bytes::try_from(value).map_err(|_| lines.fault(Refusal::LineForm))
}

// Takes the nine lines of a label.
fn nine_lines(lines: &mut Lines<'_>) -> Result<Label, Fault>
    requires { lines.old.taken ≡ 0 }
    ensures answer { label_lines lines.old.left ≡ then (meant result) (λ p. Ok (p, lines.new.left)) }
    ensures taken { IfOk result (λ _. lines.new.taken ≡ 9) }
{
    lines.fixed(b"kind=seal")?;
    let variant = variant(lines, b"variant=")?;
    let digest = lines.number(b"digest=", rules::digest_range(variant))?;
    let key = lines.number(b"keybytes=", rules::key_range(variant))?;
    let fanout = lines.number(b"fanout=", rules::FANOUT)?;
    let depth = lines.number(b"depth=", rules::DEPTH)?;
    let page = lines.number(b"page=", rules::PAGE)?;
    let salt = lines.hexadecimal(b"salt=", rules::salt_length(variant))?;
    let layout = layout(lines, b"layout=", variant)?;
    // The ranges of these four numbers end below 256, so that `as` loses nothing.
    Ok(Label {
        variant,
        digest: digest as u8,
        key: key as u8,
        fanout: fanout as u8,
        depth: depth as u8,
        page,
        salt,
        layout,
    })
}

impl Label {
    // The label that the first nine lines of a text say, and how many bytes these lines are.
    pub fn read_front(text: &[u8]) -> Result<(Label, usize), Fault>
        ensures answer { Answers result (λ p. (parts p.0, p.1)) (front_answer text.now) }
        ensures reads_what_is_written { (l : Label) (n : ℕ) → Exactly (result ≡ Ok (l, n)) (Begins text.now (label_text l) × (n ≡ length (label_text l))) }
    {
        let mut lines = Lines::new(text);
        let label = nine_lines(&mut lines)?;
        Ok((label, text.len() - lines.bytes_left()))
    }

    // The label whose text this is: a text is accepted exactly if a label writes it, and is read as that label.
    pub fn read(text: &[u8]) -> Result<Label, Fault>
        ensures answer { meant result ≡ read_answer text.now }
        ensures reads_what_is_written { (l : Label) → Exactly (result ≡ Ok l) (text.now ≡ label_text l) }
    {
        let mut lines = Lines::new(text);
        let label = nine_lines(&mut lines)?;
        lines.end()?;
        Ok(label)
    }
}
