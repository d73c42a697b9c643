// The machine words that BLAKE2 works on.
ghost use Rattle.std.specs.Prelude.{◌≡◌, ℕ, ◌+◌, ◌/◌, ◌%◌, ◌^◌, ◌<◌, ◌≤◌, List, [], ◌∷◌, map, take, bit_xor};
ghost use Rattle.blake2.specs.Bytes.{le, le_bytes, pad};
ghost use Rattle.blake2.specs.Compression.{rotr, mask};
ghost use Rattle.blake2.specs.Width.{Width, blake2b, blake2s, Small};
ghost use Rattle.std.proofs.Common.{rules};

use std::ops::BitXor;

// A word, by its value, and what the standard fixes for its width.
pub trait Word: Copy + BitXor<Self, Output = Self> {
    ghost width: { Width };

    ghost value: { Self → ℕ };

    // The bytes of a word.
    const SIZE: usize;

    ghost SIZE: { ℕ };

    // The rounds of a compression.
    const ROUNDS: usize;

    ghost ROUNDS: { ℕ };

    // The initial value.
    const IV: [Self; 8];

    ghost IV: { List Self };

    // The four rotations of G.
    const ROTATIONS: [u32; 4];

    ghost ROTATIONS: { List ℕ };

    const ZERO: Self;

    ghost ZERO: { Self };

    // All bits, or none.
    fn mask(on: bool) -> Self
        ensures { value result ≡ mask width on };

    // The low word of a counter.
    fn low(t: u64) -> Self
        ensures { value result ≡ t % 2 ^ width.bits };

    // The word above it.
    fn high(t: u64) -> Self
        ensures { value result ≡ t / 2 ^ width.bits % 2 ^ width.bits };

    // The word that the first bytes spell. Eight bytes are enough for either word, so the function is total.
    fn load(bytes: [u8; 8]) -> Self
        ensures { value result ≡ le (take width.size bytes) };

    // Its bytes, and zeros after them.
    fn bytes(self) -> [u8; 8]
        ensures { result ≡ pad 8 (le_bytes width.size (value self)) };

    // The sum, modulo 2 ^ bits. It, the rotation and `mask` have one body for both words: std has no trait for them, that of `num_traits` gives integers, where the standard has natural numbers, and a constant for `mask` would take more lines.
    fn plus(self, other: Self) -> Self
        ensures { value result ≡ (value self + value other) % 2 ^ width.bits };

    // Rotated to the right.
    fn right(self, by: u32) -> Self
        ensures { value result ≡ rotr width (by % width.bits) (value self) };

    // The constants are those of the width.
    ghost size_is: { SIZE ≡ width.size };

    ghost rounds_is: { (ROUNDS ≡ width.rounds) × (ROUNDS ≤ 12) };

    ghost iv_is: { map value IV ≡ width.iv };

    ghost rotations_are: { ROTATIONS ≡ width.r1 ∷ width.r2 ∷ width.r3 ∷ width.r4 ∷ [] };

    ghost zero_is: { value ZERO ≡ 0 };

    // A rotation is by less than the bits of a word.
    ghost rotations_fit: { (width.r1 < width.bits) × (width.r2 < width.bits) × (width.r3 < width.bits) × (width.r4 < width.bits) };

    // Whole words make up eight bytes, and a word is small in memory.
    ghost sizes: { (0 < width.size) × (width.size ≤ 8) × (8 % width.size ≡ 0) × Small Self.row };

    // `^` is that of the values.
    ghost can_xor: { (x y : Self) → Self.can_bitxor x y };

    ghost xor_is: { (x y r : Self) → Self.bitxor_gives x y r → value r ≡ bit_xor (value x) (value y) };
}

impl Word for u64 {
    ghost width = { blake2b };

    ghost value = { λ x. x };

    const SIZE: usize = 8;

    ghost SIZE = { blake2b.size };

    const ROUNDS: usize = 12;

    ghost ROUNDS = { blake2b.rounds };

    const IV: [u64; 8] = [
        0x6a09e667f3bcc908,
        0xbb67ae8584caa73b,
        0x3c6ef372fe94f82b,
        0xa54ff53a5f1d36f1,
        0x510e527fade682d1,
        0x9b05688c2b3e6c1f,
        0x1f83d9abfb41bd6b,
        0x5be0cd19137e2179,
    ];

    ghost IV = { blake2b.iv };

    const ROTATIONS: [u32; 4] = [32, 24, 16, 63];

    ghost ROTATIONS = { blake2b.r1 ∷ blake2b.r2 ∷ blake2b.r3 ∷ blake2b.r4 ∷ [] };

    const ZERO: u64 = 0;

    ghost ZERO = { 0 };

    ghost size_is = { Prim.search rules };

    ghost rounds_is = { Prim.search rules };

    ghost iv_is = { Prim.search rules };

    ghost rotations_are = { Prim.search rules };

    ghost zero_is = { Prim.search rules };

    ghost rotations_fit = { Prim.search rules };

    ghost sizes = { Prim.search rules };

    ghost can_xor = { Prim.search rules };

    ghost xor_is = { Prim.search rules };

    fn mask(on: bool) -> u64 {
        if on { u64::MAX } else { 0 }
    }

    fn low(t: u64) -> u64 {
        t
    }

    fn high(_t: u64) -> u64 {
        0
    }

    fn load(bytes: [u8; 8]) -> u64 {
        u64::from_le_bytes(bytes)
    }

    fn bytes(self) -> [u8; 8] {
        self.to_le_bytes()
    }

    fn plus(self, other: u64) -> u64 {
        self.wrapping_add(other)
    }

    fn right(self, by: u32) -> u64 {
        self.rotate_right(by)
    }
}

impl Word for u32 {
    ghost width = { blake2s };

    ghost value = { λ x. x };

    const SIZE: usize = 4;

    ghost SIZE = { blake2s.size };

    const ROUNDS: usize = 10;

    ghost ROUNDS = { blake2s.rounds };

    const IV: [u32; 8] = [
        0x6a09e667, 0xbb67ae85, 0x3c6ef372, 0xa54ff53a, 0x510e527f, 0x9b05688c, 0x1f83d9ab,
        0x5be0cd19,
    ];

    ghost IV = { blake2s.iv };

    const ROTATIONS: [u32; 4] = [16, 12, 8, 7];

    ghost ROTATIONS = { blake2s.r1 ∷ blake2s.r2 ∷ blake2s.r3 ∷ blake2s.r4 ∷ [] };

    const ZERO: u32 = 0;

    ghost ZERO = { 0 };

    ghost size_is = { Prim.search rules };

    ghost rounds_is = { Prim.search rules };

    ghost iv_is = { Prim.search rules };

    ghost rotations_are = { Prim.search rules };

    ghost zero_is = { Prim.search rules };

    ghost rotations_fit = { Prim.search rules };

    ghost sizes = { Prim.search rules };

    ghost can_xor = { Prim.search rules };

    ghost xor_is = { Prim.search rules };

    fn mask(on: bool) -> u32 {
        if on { u32::MAX } else { 0 }
    }

    fn low(t: u64) -> u32 {
        (t % 0x1_0000_0000) as u32
    }

    fn high(t: u64) -> u32 {
        (t / 0x1_0000_0000) as u32
    }

    fn load(bytes: [u8; 8]) -> u32 {
        let [a, b, c, d, ..] = bytes;
        u32::from_le_bytes([a, b, c, d])
    }

    fn bytes(self) -> [u8; 8] {
        let [a, b, c, d] = self.to_le_bytes();
        [a, b, c, d, 0, 0, 0, 0]
    }

    fn plus(self, other: u32) -> u32 {
        self.wrapping_add(other)
    }

    fn right(self, by: u32) -> u32 {
        self.rotate_right(by)
    }
}
