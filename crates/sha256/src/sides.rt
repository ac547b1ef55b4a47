// A byte string that is hashed beside others: what of it is taken in, and what is left.
ghost use Rattle.std.specs.Prelude.{◌≡◌, ◌+◌, ◌%◌, ◌^◌, ◌<◌, flat_map, length};

use crate::stream::Stream;

#[derive(Clone, Copy)]
pub(crate) struct Side<'a> {
    pub(crate) stream: Stream,
    pub(crate) blocks: &'a [[u8; 64]],
    pub(crate) back: &'a [u8],
    ghost even: { 0 < length blocks.now → stream.count % 64 ≡ 0 },
    ghost short: { stream.count + (length (flat_map (λ b. b) blocks.now) + length back.now) < 2 ^ 61 },
}
