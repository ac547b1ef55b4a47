// Copies of byte strings, damaged.
use std::alloc::{AllocError, Global};

// A copy with one bit turned, in the byte at this place, counted on from the first again; the empty string stays.
pub(crate) fn turned(heap: Global, bytes: &[u8], at: usize) -> Result<Vec<u8>, AllocError> {
    let mut copy = Vec::from_slice(heap, bytes)?;
    if !copy.is_empty() {
        let i = at % copy.len();
        copy[i] ^= 1 << (at % 8);
    }
    Ok(copy)
}

// A copy with more bytes at its end.
pub(crate) fn longer(heap: Global, bytes: &[u8], more: &[u8]) -> Result<Vec<u8>, AllocError> {
    let mut copy = Vec::from_slice(heap, bytes)?;
    copy.extend_from_slice(more)?;
    Ok(copy)
}

// All but the last digest of a path.
pub(crate) fn shorter(path: &[u8]) -> &[u8] {
    let (front, _) = path.split_at(path.len().saturating_sub(32));
    front
}
