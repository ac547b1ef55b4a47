// The end of a stream: its padding, and the digest.
ghost use Rattle.std.specs.Prelude.{◌≡◌, ℕ, ◌^◌, ◌<◌, List};
ghost use Rattle.sha256.specs.Sha256.{bytes, digest};
ghost use Rattle.sha256.specs.Streams.{Taken};

use crate::stream::Stream;
use std::array;

const ZEROS: [u8; 64] = [0; 64];

// The bytes of a hash value, the high byte of each word first.
fn value_bytes(value: [u32; 8]) -> [u8; 32]
    ensures { result ≡ bytes value }
{
    array::from_fn(|i| value[i / 4].to_be_bytes()[i % 4])
}

impl Stream {
    // The digest of what was taken in.
    pub(crate) fn finish(self) -> [u8; 32]
        requires { self.count < 2 ^ 61 }
        ensures { (m : List ℕ) → Taken m self → result ≡ digest m }
    {
        let bits = (8 * self.count).to_be_bytes();
        let zeros = (119 - self.count % 64) % 64;
        let padded = self
            .absorb(&[128])
            .absorb(&ZEROS[0..zeros as usize])
            .absorb(&bits);
        value_bytes(padded.value)
    }
}
