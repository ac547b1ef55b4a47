// SHA-256 of four blocks side by side.
ghost use Rattle.std.specs.Prelude.{◌≡◌, ◌<◌, map};
ghost use Rattle.std.specs.Simd.Lanes.{zip2};
ghost use Rattle.sha256.specs.Lanes.{column, columns};
ghost use Rattle.sha256.specs.Sha256.{compress, words};
ghost use Rattle.sha256.specs.Sides.{lanes};

use crate::block::{after_block, load};
use crate::lanes::Lanes;
use std::array::from_fn;
use std::simd::prelude::*;

// Word i of each of four rows, in its lane.
pub(crate) fn across<const N: usize>(rows: &[[u32; N]; 4], i: usize) -> u32x4
    requires { i < N }
    ensures { result ≡ column i rows.now }
{
    let [p, q, r, s] = rows;
    u32x4::from_array([p[i], q[i], r[i], s[i]])
}

// The sixteen words of each block, in its lane.
fn load_four(blocks: [&[u8; 64]; 4]) -> [u32x4; 16]
    ensures { columns result ≡ map (λ block. words block.now) blocks.entry }
{
    let rows = blocks.map(load);
    from_fn(
        |i|
            requires { i < 16 }
            ensures { result ≡ column i rows }
        { across(&rows, i) },
    )
}

// What a block of 64 bytes in each lane makes of the lane's hash value.
pub(crate) fn compressed_four(v: Lanes, blocks: [&[u8; 64]; 4]) -> Lanes
    ensures { lanes result ≡ zip2 (λ value block. compress value (words block.now)) (lanes v) blocks.entry }
{
    after_block(v, load_four(blocks))
}
