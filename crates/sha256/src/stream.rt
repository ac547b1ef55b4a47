// A stream of bytes on its way through SHA-256: the hash value of its whole blocks, and what is left over.
// It goes by value and memory is fixed, so `rest` is a whole block; `count` is of all bytes, and its remainder by 64 says how
// much of the block is filled.
#[derive(Clone, Copy)]
pub(crate) struct Stream {
    pub(crate) value: [u32; 8],
    pub(crate) rest: [u8; 64],
    pub(crate) count: u64,
}
