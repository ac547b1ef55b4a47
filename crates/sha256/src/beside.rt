// How a byte string is begun, moved on and ended beside others.
ghost use Rattle.std.specs.Prelude.{◌≡◌, ℕ, ◌+◌, ◌≤◌, List, ◌∷◌, length, take, is_ok, IfOk};
ghost use Rattle.sha256.specs.Hashers.{counts};
ghost use Rattle.sha256.specs.Sha256.{digest};
ghost use Rattle.sha256.specs.Sides.{Behind, Holds, Keeps};
ghost use Rattle.sha256.specs.Streams.{after};

use crate::hasher::TooLong;
use crate::hashing::UNCOUNTED;
use crate::sides::Side;
use crate::stream::Stream;

impl<'a> Side<'a> {
    // A byte and then a part, of which as much is taken in as fills a block with the byte; refused where they are more than a padding can count.
    pub(crate) fn begun(first: u8, part: &'a [u8]) -> Result<Side<'a>, TooLong>
        ensures fits { is_ok result ≡ counts (1 + length part.now) }
        ensures all { IfOk result (Holds (first ∷ part.now)) }
    {
        if part.len() as u64 >= UNCOUNTED - 1 {
            return Err(TooLong);
        }
        let (front, others) = part.split_at(part.len().min(63));
        let (blocks, back) = others.as_chunks();
        Ok(Side {
            stream: Stream::new().absorb(&[first]).absorb(front),
            blocks,
            back,
        })
    }

    // The side behind its first blocks, which make this hash value.
    pub(crate) fn behind(self, count: usize, value: [u32; 8]) -> Side<'a>
        requires few { count ≤ length self.blocks.now }
        requires made { value ≡ after self.stream.value (take count self.blocks.now) }
        ensures keeps { Keeps self.entry result }
        ensures taken { Behind count self.entry result }
    {
        let (taken, blocks) = self.blocks.split_at(count);
        Side {
            stream: self.stream.behind(taken, value),
            blocks,
            back: self.back,
        }
    }

    // The digest of all its bytes.
    pub(crate) fn ended(self) -> [u8; 32]
        ensures { (m : List ℕ) → Holds m self.entry → result ≡ digest m }
    {
        self.stream
            .absorb(self.blocks.as_flattened())
            .absorb(self.back)
            .finish()
    }
}
