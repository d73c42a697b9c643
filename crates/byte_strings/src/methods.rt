// Making, reading and extending a byte string.
ghost use Rattle.std.specs.Prelude.{◌≡◌, ◌+◌, ◌<◌, ◌≤◌, [], ◌∷◌, ◌++◌, length, Decides, nat_eq};
ghost use Rattle.byte_strings.specs.Strings.{listed, outcome, copied, append_answer, appended, zero_filled};
ghost use Rattle.byte_strings.specs.declared.bytes.Bytes.{Bytes};
ghost use Rattle.std.specs.Cmp.Rules.{comparing};
ghost use Rattle.std.proofs.Common.{rules};
ghost use Rattle.std.specs.Cmp.Lexicographic.{pointwise};
ghost use Rattle.std.specs.Ordering.{on};

use crate::{Bytes, TooLong};

impl<const N: usize> Bytes<N> {
    // The empty string.
    pub fn new() -> Bytes<N>
        ensures { listed result ≡ [] }
    {
        Bytes {
            all: [0; N],
            len: 0,
        }
    }

    pub fn len(&self) -> usize
        ensures len { result ≡ length (listed self.now) }
        ensures fits { result ≤ N }
    {
        self.as_slice().len()
    }

    pub fn as_slice(&self) -> &[u8]
        ensures bytes { result.now ≡ listed self.now }
        ensures fits { length (listed self.now) ≤ N }
    {
        &self.all[..self.len]
    }

    // All N bytes: those of the string, and zeros behind them.
    pub fn padded(&self) -> [u8; N]
        ensures { result ≡ zero_filled N (listed self.now) }
    {
        let Bytes { all, len: _ } = *self;
        all
    }

    // Adds the bytes at the end, or where they do not fit, none of them.
    pub fn append(&mut self, more: &[u8]) -> Result<(), TooLong>
        ensures answer { result ≡ append_answer N (listed self.old) more.now }
        ensures after { listed self.new ≡ appended N (listed self.old) more.now }
    {
        if more.len() > N - self.len {
            return Err(TooLong);
        }
        let end = self.len + more.len();
        let all = &mut self.all[..];
        all[self.len..end].copy_from_slice(more);
        self.len = end;
        Ok(())
    }

    // Adds a byte at the end.
    pub(crate) fn push(&mut self, b: u8)
        requires { self.old.len < N }
        ensures len { self.new.len ≡ self.old.len + 1 }
        ensures bytes { listed self.new ≡ listed self.old ++ b ∷ [] }
    {
        self.all[self.len] = b;
        self.len += 1;
    }
}

// A copy of the bytes, where N are enough.
impl<const N: usize> TryFrom<&[u8]> for Bytes<N> {
    type Error = TooLong;

    ghost try_from_gives = { λ bytes r. outcome r ≡ copied N bytes.now };

    fn try_from(bytes: &[u8]) -> Result<Bytes<N>, TooLong> {
        let mut copy = Bytes::new();
        copy.append(bytes)?;
        Ok(copy)
    }
}

// Written out: a derived `==` would go over the unused bytes too, and its contract would not say `same`.
impl<const N: usize> PartialEq for Bytes<N> {
    ghost eq = { on listed (pointwise nat_eq) };

    ghost laws = { Prim.search (comparing, rules) };

    // Whether they hold the same bytes: then they are the same value.
    fn eq(&self, other: &Bytes<N>) -> bool
        ensures value { result ≡ on listed (pointwise nat_eq) self.now other.now }
        ensures same { Decides result (self.now ≡ other.now) }
    {
        self.as_slice() == other.as_slice()
    }
}

impl<const N: usize> Eq for Bytes<N> {
    ghost laws = { Prim.search (comparing, rules) };
}

// `==` holds exactly between a string and itself.
pub fn equality_is_identity<const N: usize>()
    ensures { (a b : Bytes N) → Decides (⟦<Bytes<N> as PartialEq>⟧.eq a b) (a ≡ b) }
{}
