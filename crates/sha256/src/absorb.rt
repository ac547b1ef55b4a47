// How a stream takes in bytes: those that fill its block, and whole blocks.
ghost use Rattle.std.specs.Prelude.{◌≡◌, ◌+◌, ◌*◌, ◌%◌, ◌<◌, ◌≤◌, [], flat_map, length};
ghost use Rattle.sha256.specs.Streams.{Adds, Fits, Taken, after};

use crate::block::compressed;
use crate::constants::INITIAL;
use crate::stream::Stream;

// The hash value after whole blocks; all blocks go through here, so that one is compressed in the loop itself.
// No `fold`, since a closure says nothing of an array that it takes by value.
fn after_blocks(mut value: [u32; 8], blocks: &[[u8; 64]]) -> [u32; 8]
    ensures { result ≡ after value blocks.now }
{
    for block in blocks {
        // In two lines, since the borrow checker doesn't cover a call whose array is laid in a local that is there already.
        let next = compressed(value, block);
        value = next;
    }
    value
}

impl Stream {
    pub(crate) fn new() -> Stream
        ensures { Taken [] result }
    {
        Stream {
            value: INITIAL,
            rest: [0; 64],
            count: 0,
        }
    }

    // Takes in a part that the block at hand has room for, and the block with it if that fills it.
    fn fill(mut self, part: &[u8]) -> Stream
        requires room { self.count % 64 + length part.now ≤ 64 }
        requires countable { Fits self (length part.now) }
        ensures { Adds part.now self result }
    {
        let at = (self.count % 64) as usize;
        let end = at + part.len();
        self.rest[at..end].copy_from_slice(part);
        if end == 64 {
            self.value = after_blocks(self.value, &[self.rest]);
        }
        self.count += part.len() as u64;
        self
    }

    // The stream behind whole blocks, where none is begun, given the hash value that they make.
    pub(crate) fn behind(self, blocks: &[[u8; 64]], value: [u32; 8]) -> Stream
        requires even { 0 < length blocks.now → self.count % 64 ≡ 0 }
        requires countable { Fits self (length (flat_map (λ b. b) blocks.now)) }
        requires made { value ≡ after self.value blocks.now }
        ensures adds { Adds (flat_map (λ b. b) blocks.now) self result }
        ensures even { result.count ≡ self.count + length blocks.now * 64 }
        ensures value { result.value ≡ value }
        ensures rest { result.rest ≡ self.rest }
    {
        Stream {
            value,
            count: self.count + blocks.as_flattened().len() as u64,
            ..self
        }
    }

    // Takes in whole blocks where none is begun, without copying them.
    fn take_blocks(self, blocks: &[[u8; 64]]) -> Stream
        requires even { self.count % 64 ≡ 0 }
        requires countable { Fits self (length (flat_map (λ b. b) blocks.now)) }
        ensures { Adds (flat_map (λ b. b) blocks.now) self result }
    {
        self.behind(blocks, after_blocks(self.value, blocks))
    }

    // Takes in a part of any length.
    pub(crate) fn absorb(self, part: &[u8]) -> Stream
        requires { Fits self (length part.now) }
        ensures { Adds part.now self result }
    {
        let room = 64 - (self.count % 64) as usize;
        if part.len() <= room {
            return self.fill(part);
        }
        let (front, others) = part.split_at(room);
        let (blocks, back) = others.as_chunks();
        self.fill(front).take_blocks(blocks).fill(back)
    }
}
