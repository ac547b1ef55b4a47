// The digest of a byte string, part by part or at once.
ghost use Rattle.std.specs.Prelude.{◌≡◌, ℕ, ◌+◌, List, [], ◌∷◌, ◌++◌, length, is_ok, IfOk};
ghost use Rattle.sha256.specs.Hashers.{Took, counts};
ghost use Rattle.sha256.specs.Sha256.{digest};

use crate::hasher::{Hasher, TooLong};
use crate::stream::Stream;

// The fewest bytes that a padding can't count: their bits don't fit 64 bits.
pub(crate) const UNCOUNTED: u64 = 1 << 61;

impl Hasher {
    pub fn new() -> Hasher
        ensures { Took [] result }
    {
        Hasher {
            stream: Stream::new(),
        }
    }

    // Takes in one part more, of any length; refused where the bytes get more than a padding can count.
    pub fn update(self, part: &[u8]) -> Result<Hasher, TooLong>
        ensures fits { is_ok result ≡ counts (self.stream.count + length part.now) }
        ensures taken { IfOk result (λ h. (m : List ℕ) → Took m self → Took (m ++ part.now) h) }
    {
        if part.len() as u64 >= UNCOUNTED - self.stream.count {
            return Err(TooLong);
        }
        Ok(Hasher {
            stream: self.stream.absorb(part),
        })
    }

    // The digest of all that was taken in.
    pub fn finish(self) -> [u8; 32]
        ensures { (m : List ℕ) → Took m self → result ≡ digest m }
    {
        self.stream.finish()
    }
}

// The digest of a byte string.
pub fn digest_of(bytes: &[u8]) -> Result<[u8; 32], TooLong>
    ensures fits { is_ok result ≡ counts (length bytes.now) }
    ensures value { IfOk result (λ d. d ≡ digest bytes.now) }
{
    Ok(Hasher::new().update(bytes)?.finish())
}

// The digest of a byte and then a byte string.
pub fn digest_after(first: u8, rest: &[u8]) -> Result<[u8; 32], TooLong>
    ensures fits { is_ok result ≡ counts (1 + length rest.now) }
    ensures value { IfOk result (λ d. d ≡ digest (first ∷ rest.now)) }
{
    Ok(Hasher::new().update(&[first])?.update(rest)?.finish())
}
