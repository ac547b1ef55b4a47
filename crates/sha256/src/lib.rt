// SHA-256: the digest of a byte string, at once, part by part, or of four strings side by side.
#![tactic(auto)]

mod absorb;
mod beside;
mod block;
mod constants;
mod finish;
mod four;
mod hasher;
mod hashing;
mod lanes;
mod rounds;
mod sides;
mod stream;
mod together;
mod words;

pub use hasher::{Hasher, TooLong};
pub use hashing::{digest_after, digest_of};
pub use together::digest_four;
