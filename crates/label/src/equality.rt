// Equality of labels.
ghost use Rattle.std.specs.Prelude.{◌≡◌, Decides, nat_eq};
ghost use Rattle.std.specs.Cmp.Rules.{comparing};
ghost use Rattle.std.specs.Ordering.{on, eq_of_both};
ghost use Rattle.std.proofs.Common.{rules};
ghost use Rattle.label.specs.declared.label.Label.{Label};

use crate::Label;
use blake2::Variant;
use byte_strings::Bytes;

// Whether the five numbers are the same.
fn same_numbers(a: &Label, b: &Label) -> bool
    ensures { Decides result ((a.now.digest ≡ b.now.digest) × (a.now.key ≡ b.now.key) × (a.now.fanout ≡ b.now.fanout) × (a.now.depth ≡ b.now.depth) × (a.now.page ≡ b.now.page)) }
{
    a.digest == b.digest
        && a.key == b.key
        && a.fanout == b.fanout
        && a.depth == b.depth
        && a.page == b.page
}

// Written out, since a derived `==` would not say `same` in its contract.
impl PartialEq for Label {
    ghost eq = { eq_of_both (on (λ l. l.variant) ⟦<Variant as PartialEq>⟧.eq)
        (eq_of_both (on (λ l. l.digest) nat_eq)
        (eq_of_both (on (λ l. l.key) nat_eq)
        (eq_of_both (on (λ l. l.fanout) nat_eq)
        (eq_of_both (on (λ l. l.depth) nat_eq)
        (eq_of_both (on (λ l. l.page) nat_eq)
        (eq_of_both (on (λ l. l.salt) ⟦<Bytes<16> as PartialEq>⟧.eq)
        (on (λ l. l.layout) ⟦<Bytes<16> as PartialEq>⟧.eq))))))) };

    ghost laws = { Prim.search (comparing, rules) depth 12 };

    // Whether they say the same: then they are the same value.
    fn eq(&self, other: &Label) -> bool
        ensures value { result ≡ ⟦<Label as PartialEq>⟧.eq self.now other.now }
        ensures same { Decides result (self.now ≡ other.now) }
    {
        if self.variant != other.variant || !same_numbers(self, other) {
            return false;
        }
        self.salt == other.salt && self.layout == other.layout
    }
}

impl Eq for Label {
    ghost laws = { Prim.search (comparing, rules) depth 12 };
}

// `==` holds exactly between a label and itself.
pub fn equality_is_identity()
    ensures { (a b : Label) → Decides (⟦<Label as PartialEq>⟧.eq a b) (a ≡ b) }
{
    byte_strings::equality_is_identity::<16>();
}
