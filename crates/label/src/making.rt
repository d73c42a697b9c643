// Making a label from its parts.
ghost use Rattle.std.specs.Prelude.{◌≡◌, [], ◌∷◌, not};
ghost use Rattle.fault.specs.Faults.{on, unless};
ghost use Rattle.fault.specs.declared.refusal.Refusal.TheVariants.{NumberRange};
ghost use Rattle.lines.specs.Lines.{inside};
ghost use Rattle.label.specs.Labels.{new_answer};
ghost use Rattle.label.specs.Meaning.{meant};

use crate::{Label, rules};
use blake2::Variant;
use byte_strings::Bytes;
use fault::{Fault, Refusal};
use lines::Range;

// Refuses a number outside its range, about the line that it would stand on.
fn check(range: Range, n: u16, line: usize) -> Result<(), Fault>
    ensures { result ≡ unless (on (not (inside range n)) NumberRange line ∷ []) tt }
{
    if !range.contains(n) {
        return Err(Fault::new(Refusal::NumberRange, line));
    }
    Ok(())
}

impl Label {
    // The label with these fields. A field that breaks its rule is refused as its line would be: 22 for a number, 21 for salt and layout.
    pub fn new(
        variant: Variant,
        digest: u8,
        key: u8,
        fanout: u8,
        depth: u8,
        page: u16,
        salt: &[u8],
        layout: &[u8],
    ) -> Result<Label, Fault>
        ensures { meant result ≡ new_answer (record { variant = variant; digest = digest; key = key; fanout = fanout; depth = depth; page = page; salt = salt.now; layout = layout.now }) }
    {
        check(rules::digest_range(variant), u16::from(digest), 3)?;
        check(rules::key_range(variant), u16::from(key), 4)?;
        check(rules::FANOUT, u16::from(fanout), 5)?;
        check(rules::DEPTH, u16::from(depth), 6)?;
        check(rules::PAGE, page, 7)?;
        if salt.len() != rules::salt_length(variant) {
            return Err(Fault::new(Refusal::LineForm, 8));
        }
        let salt = Bytes::try_from(salt).map_err(|_| Fault::new(Refusal::LineForm, 8))?;
        if !rules::is_layout_name(variant, layout) {
            return Err(Fault::new(Refusal::LineForm, 9));
        }
        let layout = Bytes::try_from(layout).map_err(|_| Fault::new(Refusal::LineForm, 9))?;
        Ok(Label {
            variant,
            digest,
            key,
            fanout,
            depth,
            page,
            salt,
            layout,
        })
    }
}
