// Files whose bytes are drawn one after the other.
ghost use Rattle.std.specs.Prelude.{◌≤◌};

use std::alloc::{AllocError, Global};
use std::iter;

// The next number of a linear congruential generator.
fn next(state: u32) -> u32 {
    state.wrapping_mul(1664525).wrapping_add(1013904223)
}

// How long the last of at most 40 pieces is: whole, a few bytes, a few less than a whole one, or something between.
fn last_length(pieces: u8) -> u32
    ensures most { result ≤ 102255 }
    ensures fits { pieces ≤ 40 → result ≤ 16384 }
{
    let count = u32::from(pieces);
    match pieces % 4 {
        0 => 16384,
        1 => count,
        2 => 16384 - count,
        _ => 401 * count,
    }
}

// A file of so many pieces; of each number that is drawn it has the high byte.
pub(crate) fn drawn(heap: Global, pieces: u8) -> Result<Vec<u8>, AllocError> {
    let length = 16384 * u32::from(pieces.saturating_sub(1)) + last_length(pieces);
    iter::successors(Some(next(u32::from(pieces))), |state| Some(next(*state)))
        .take(length as usize)
        .map(|state| (state >> 24) as u8)
        .collect(heap)
}
