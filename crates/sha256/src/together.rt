// The digests of four byte strings at once, each a byte and then a part.
ghost use Rattle.std.specs.Prelude.{◌≡◌, ◌<◌, ◌≤◌, ◌∷◌, map, length, take, is_ok, IfOk, slice_index};
ghost use Rattle.std.specs.List.{AllByRecursion, AllZip};
ghost use Rattle.std.specs.Simd.Lanes.{zip2};
ghost use Rattle.sha256.specs.Lanes.{lane};
ghost use Rattle.sha256.specs.Parts.{each_counts};
ghost use Rattle.sha256.specs.Sha256.{digest};
ghost use Rattle.sha256.specs.Sides.{Behind, Keeps, fewest, lanes};
ghost use Rattle.sha256.specs.Streams.{after};

use crate::four::compressed_four;
use crate::hasher::TooLong;
use crate::lanes::Lanes;
use crate::sides::Side;
use std::simd::prelude::*;

// Four hash values, each in a lane of its own.
fn lanes_of(values: [[u32; 8]; 4]) -> Lanes
    ensures { lanes result ≡ values }
{
    // `across` makes the same of rows of any length, but then the proof that each of these has eight words didn't close.
    let [p, q, r, s] = values;
    let at = |i: usize| u32x4::from_array([p[i], q[i], r[i], s[i]]);
    Lanes {
        a: at(0),
        b: at(1),
        c: at(2),
        d: at(3),
        e: at(4),
        f: at(5),
        g: at(6),
        h: at(7),
    }
}

// The hash value in lane k.
fn value_in(v: Lanes, k: usize) -> [u32; 8]
    requires { k < 4 }
    ensures { result ≡ lane k v }
{
    [v.a, v.b, v.c, v.d, v.e, v.f, v.g, v.h].map(
        |x|
            requires { k < 4 }
            ensures { result ≡ slice_index x k }
        { x.to_array()[k] },
    )
}

// Each lane's hash value after so many blocks of its own.
fn after_four(v: Lanes, blocks: [&[[u8; 64]]; 4], count: usize) -> Lanes
    requires { AllByRecursion (λ b. count ≤ length b.now) blocks }
    ensures { lanes result ≡ zip2 (λ value b. after value (take count b.now)) (lanes v) blocks.entry }
{
    let [p, q, r, s] = blocks;
    p[..count]
        .iter()
        .zip(&q[..count])
        .zip(&r[..count])
        .zip(&s[..count])
        .fold(v, |v, (((p, q), r), s)| compressed_four(v, [p, q, r, s]))
}

// Takes in the blocks that all four have, side by side.
fn side_by_side(sides: [Side; 4]) -> [Side; 4]
    ensures keeps { AllZip Keeps sides.entry result }
    ensures all { AllZip (Behind (fewest sides.entry)) sides.entry result }
{
    let [p, q, r, s] = sides;
    let count = p
        .blocks
        .len()
        .min(q.blocks.len())
        .min(r.blocks.len())
        .min(s.blocks.len());
    let v = lanes_of([
        p.stream.value,
        q.stream.value,
        r.stream.value,
        s.stream.value,
    ]);
    let v = after_four(v, [p.blocks, q.blocks, r.blocks, s.blocks], count);
    [
        p.behind(count, value_in(v, 0)),
        q.behind(count, value_in(v, 1)),
        r.behind(count, value_in(v, 2)),
        s.behind(count, value_in(v, 3)),
    ]
}

// The digests of four byte strings, each a byte and then a part; fastest where the parts have one length.
pub fn digest_four(first: u8, parts: [&[u8]; 4]) -> Result<[[u8; 32]; 4], TooLong>
    ensures fits { is_ok result ≡ each_counts (map (λ part. part.now) parts.entry) }
    ensures value { IfOk result (λ ds. ds ≡ map (λ part. digest (first ∷ part.now)) parts.entry) }
{
    let sides = parts
        .map(|part| Side::begun(first, part))
        .try_map(|side| side)?;
    Ok(side_by_side(sides).map(Side::ended))
}
