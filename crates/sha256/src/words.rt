// A word of SHA-256, alone or in each lane of a vector, and the functions of SHA-256 on words.
ghost use Rattle.std.specs.Prelude.{◌≡◌, ℕ, ◌^◌, ◌<◌, slice_index, bit_and, bit_xor};
ghost use Rattle.sha256.specs.Words.{add, bsig0, bsig1, ch, maj, rotr, shr, ssig0, ssig1};

use std::simd::prelude::*;

// A word, or as many words as there are lanes, each in a lane of its own.
pub(crate) trait Word: Copy {
    // How many lanes there are.
    ghost lanes: { ℕ };

    // The word in lane i.
    ghost lane: { ℕ → Self → ℕ };

    // The same word in each lane.
    fn splat(x: u32) -> Self
        ensures { (i : ℕ) → i < lanes → lane i result ≡ x };

    // The sum in each lane, without what is carried out of a word.
    fn plus(self, other: Self) -> Self
        ensures { (i : ℕ) → i < lanes → lane i result ≡ add (lane i self) (lane i other) };

    // The bits that both words of a lane have; the second clause, here and at `xor`, says that words are below 2 ^ 32.
    fn and(self, other: Self) -> Self
        ensures value { (i : ℕ) → i < lanes → lane i result ≡ bit_and (lane i self) (lane i other) }
        ensures words { (i : ℕ) → i < lanes → (lane i self < 2 ^ 32) × (lane i other < 2 ^ 32) };

    // The bits that just one of the two words of a lane has.
    fn xor(self, other: Self) -> Self
        ensures value { (i : ℕ) → i < lanes → lane i result ≡ bit_xor (lane i self) (lane i other) }
        ensures words { (i : ℕ) → i < lanes → (lane i self < 2 ^ 32) × (lane i other < 2 ^ 32) };

    // Shifted to the right by n bits.
    fn shifted(self, n: u32) -> Self
        requires { n < 32 }
        ensures { (i : ℕ) → i < lanes → lane i result ≡ shr n (lane i self) };

    // Rotated to the right by n bits.
    fn rotated(self, n: u32) -> Self
        requires { (0 < n) × (n < 32) }
        ensures { (i : ℕ) → i < lanes → lane i result ≡ rotr n (lane i self) };
}

impl Word for u32 {
    ghost lanes = { 1 };

    ghost lane = { λ i x. x };

    fn splat(x: u32) -> u32 {
        x
    }

    fn plus(self, other: u32) -> u32 {
        self.wrapping_add(other)
    }

    fn and(self, other: u32) -> u32 {
        self & other
    }

    fn xor(self, other: u32) -> u32 {
        self ^ other
    }

    fn shifted(self, n: u32) -> u32 {
        self >> n
    }

    fn rotated(self, n: u32) -> u32 {
        self.rotate_right(n)
    }
}

impl Word for u32x4 {
    ghost lanes = { 4 };

    ghost lane = { λ i x. slice_index x i };

    fn splat(x: u32) -> u32x4 {
        u32x4::splat(x)
    }

    fn plus(self, other: u32x4) -> u32x4 {
        self + other
    }

    fn and(self, other: u32x4) -> u32x4 {
        self & other
    }

    fn xor(self, other: u32x4) -> u32x4 {
        self ^ other
    }

    fn shifted(self, n: u32) -> u32x4 {
        self >> u32x4::splat(n)
    }

    fn rotated(self, n: u32) -> u32x4 {
        (self >> u32x4::splat(n)) | (self << u32x4::splat(32 - n))
    }
}

pub(crate) fn big_sigma0<W: Word>(x: W) -> W
    ensures { (i : ℕ) → i < W.lanes → W.lane i result ≡ bsig0 (W.lane i x) }
{
    x.rotated(2).xor(x.rotated(13)).xor(x.rotated(22))
}

pub(crate) fn big_sigma1<W: Word>(x: W) -> W
    ensures { (i : ℕ) → i < W.lanes → W.lane i result ≡ bsig1 (W.lane i x) }
{
    x.rotated(6).xor(x.rotated(11)).xor(x.rotated(25))
}

pub(crate) fn small_sigma0<W: Word>(x: W) -> W
    ensures { (i : ℕ) → i < W.lanes → W.lane i result ≡ ssig0 (W.lane i x) }
{
    x.rotated(7).xor(x.rotated(18)).xor(x.shifted(3))
}

pub(crate) fn small_sigma1<W: Word>(x: W) -> W
    ensures { (i : ℕ) → i < W.lanes → W.lane i result ≡ ssig1 (W.lane i x) }
{
    x.rotated(17).xor(x.rotated(19)).xor(x.shifted(10))
}

// A shorter form than the standard's, for speed.
pub(crate) fn choose<W: Word>(x: W, y: W, z: W) -> W
    ensures { (i : ℕ) → i < W.lanes → W.lane i result ≡ ch (W.lane i x) (W.lane i y) (W.lane i z) }
{
    y.xor(z).and(x).xor(z)
}

// A shorter form than the standard's, of which each round takes over a part from the one before.
pub(crate) fn majority<W: Word>(x: W, y: W, z: W) -> W
    ensures { (i : ℕ) → i < W.lanes → W.lane i result ≡ maj (W.lane i x) (W.lane i y) (W.lane i z) }
{
    x.xor(y).and(y.xor(z)).xor(y)
}
