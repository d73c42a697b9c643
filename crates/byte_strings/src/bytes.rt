// A byte string of at most N bytes.
ghost use Rattle.std.specs.Prelude.{◌≡◌, ℕ, ◌-◌, ◌<◌, ◌≤◌, length, drop, replicate, slice_index};

// The library allocates nothing, so the bytes lie in place; the toolchain's `ArrayVec` is not `Copy`, which a label is.
// The first `len` bytes of `all` are the string. The unused bytes are zero, so that equal strings are equal values.
// The facts are fields and no model: a view as a list would say of a string in hand neither that it has at most N bytes nor that each is below 256.
#[derive(Clone, Copy, Debug)]
pub struct Bytes<const N: usize> {
    pub(crate) all: [u8; N],
    pub(crate) len: usize,
    ghost size: { length all ≡ N },
    ghost fits: { len ≤ N },
    ghost tail: { drop len all ≡ replicate (N - len) 0 },
    ghost small: { (k : ℕ) → slice_index all k < 256 },
}
