// One block of SHA-256 or one in each lane: its sixteen words, its 64 rounds, and what they make of the hash value.
ghost use Rattle.std.specs.Prelude.{◌≡◌, ℕ, ◌+◌, ◌%◌, ◌<◌, ◌≤◌, List, length, map};
ghost use Rattle.sha256.specs.Sha256.{compress, words};
ghost use Rattle.sha256.specs.Steps.{DoesMore, Done, Started, values};

use crate::constants::ROUNDS;
use crate::rounds::{Variables, round};
use crate::words::{Word, small_sigma0, small_sigma1};
use std::array::from_fn;

// Round t + 16 + i, with t more words done before word i; its word takes the place of the oldest. Variables go by value and
// words are lent, here and below, so they are two parameters and no struct.
fn turn<W: Word>(v: Variables<W>, w: &mut [W; 16], t: usize, i: usize) -> Variables<W>
    requires { (i < 16) × ((t ≤ 32) × (t % 16 ≡ 0)) }
    ensures { DoesMore W.lanes W.lane (t + i) v w.old (t + (i + 1)) result w.new }
{
    let x = small_sigma1(w[(i + 14) % 16])
        .plus(w[(i + 9) % 16])
        .plus(small_sigma0(w[(i + 1) % 16]))
        .plus(w[i]);
    w[i] = x;
    round(v, ROUNDS[t + 16 + i], x)
}

// Round i, for i below 16: its word is one of the block's own.
fn first_turn<W: Word>(v: Variables<W>, w: &[W; 16], i: usize) -> Variables<W>
    requires { i < 16 }
    ensures { (k : ℕ) (ws h : List ℕ) → k < W.lanes → length ws ≡ 16 → Started ws h i (values (W.lane k) v) (map (W.lane k) w.now) → Started ws h (i + 1) (values (W.lane k) result) (map (W.lane k) w.now) }
{
    round(v, ROUNDS[i], w[i])
}

// The first sixteen rounds, written out so that the variables stay in registers: as a `for` one stream takes a sixth longer
// and is slower than `sha256sum`, where written out it is 1.05 times as fast.
fn first_sixteen<W: Word>(v: Variables<W>, w: &[W; 16]) -> Variables<W>
    ensures { (k : ℕ) (ws h : List ℕ) → k < W.lanes → length ws ≡ 16 → Started ws h 0 (values (W.lane k) v) (map (W.lane k) w.now) → Done ws h 0 (values (W.lane k) result) (map (W.lane k) w.now) }
{
    let v = first_turn(v, w, 0);
    let v = first_turn(v, w, 1);
    let v = first_turn(v, w, 2);
    let v = first_turn(v, w, 3);
    let v = first_turn(v, w, 4);
    let v = first_turn(v, w, 5);
    let v = first_turn(v, w, 6);
    let v = first_turn(v, w, 7);
    let v = first_turn(v, w, 8);
    let v = first_turn(v, w, 9);
    let v = first_turn(v, w, 10);
    let v = first_turn(v, w, 11);
    let v = first_turn(v, w, 12);
    let v = first_turn(v, w, 13);
    let v = first_turn(v, w, 14);
    let v = first_turn(v, w, 15);
    v
}

// Sixteen rounds with sixteen more words, written out for the same reason.
fn sixteen<W: Word>(v: Variables<W>, w: &mut [W; 16], t: usize) -> Variables<W>
    requires { (t ≤ 32) × (t % 16 ≡ 0) }
    ensures { DoesMore W.lanes W.lane t v w.old (t + 16) result w.new }
{
    let v = turn(v, w, t, 0);
    let v = turn(v, w, t, 1);
    let v = turn(v, w, t, 2);
    let v = turn(v, w, t, 3);
    let v = turn(v, w, t, 4);
    let v = turn(v, w, t, 5);
    let v = turn(v, w, t, 6);
    let v = turn(v, w, t, 7);
    let v = turn(v, w, t, 8);
    let v = turn(v, w, t, 9);
    let v = turn(v, w, t, 10);
    let v = turn(v, w, t, 11);
    let v = turn(v, w, t, 12);
    let v = turn(v, w, t, 13);
    let v = turn(v, w, t, 14);
    let v = turn(v, w, t, 15);
    v
}

// The 48 rounds after the first sixteen.
fn later<W: Word>(mut v: Variables<W>, w: &mut [W; 16]) -> Variables<W>
    ensures { DoesMore W.lanes W.lane 0 v w.old 48 result w.new }
{
    // The number of the turn says which constants are next. `for t in [0, 16, 32]` says no more, and costs one instruction in
    // a hundred.
    for j in 0..3 {
        v = sixteen(v, w, 16 * j);
    }
    v
}

// What sixteen words make of the hash value, in each lane.
pub(crate) fn after_block<W: Word>(value: Variables<W>, words: [W; 16]) -> Variables<W>
    ensures { (k : ℕ) → k < W.lanes → values (W.lane k) result ≡ compress (values (W.lane k) value) (map (W.lane k) words) }
{
    let mut w = words;
    let v = first_sixteen(value, &w);
    let v = later(v, &mut w);
    value.plus(v)
}

// The sixteen words of a block.
pub(crate) fn load(block: &[u8; 64]) -> [u32; 16]
    ensures value { result ≡ words block.now }
    ensures sized { length result ≡ 16 }
{
    let (fours, _) = block.as_chunks();
    from_fn(|i| u32::from_be_bytes(fours[i]))
}

// What a block of 64 bytes makes of the hash value.
pub(crate) fn compressed(value: [u32; 8], block: &[u8; 64]) -> [u32; 8]
    ensures { result ≡ compress value (words block.now) }
{
    // A hash value is a list for the standard and eight variables for a block; it is turned once each way, here.
    let [a, b, c, d, e, f, g, h] = value;
    let v = after_block(
        Variables {
            a,
            b,
            c,
            d,
            e,
            f,
            g,
            h,
        },
        load(block),
    );
    [v.a, v.b, v.c, v.d, v.e, v.f, v.g, v.h]
}
