// A file taken in part by part, its leaf digests kept.
ghost use Rattle.std.specs.Prelude.{◌≡◌, ◌<◌, ◌≤◌, true, false, [], is_ok, MatchResult};
ghost use Rattle.std.proofs.Math.ListN as Lists;
ghost use Rattle.merkle.specs.Files.{Of, TakesIn, follows};
ghost use Rattle.merkle.specs.Lengths.{is_length};
ghost use Rattle.swarm.specs.Faults.{number};

use crate::digests::Digests;
use crate::lengths::{PIECE, file_length, pieces_of};
use crate::tree::{leaf_of, leaves_of};
use std::alloc::Global;
use swarm::Fault;

// So many bytes are four pieces, whose digests are found side by side.
const FOUR_PIECES: usize = 65_536;

impl Digests {
    // Nothing yet of a file of this length, and room for all its digests.
    pub fn new(heap: Global, length: u64) -> Result<Digests, Fault>
        ensures made { MatchResult result (λ d. Of [] d × (d.length ≡ length) × (is_length length ≡ true)) (λ e. (is_length length ≡ true → e ≡ Fault.NoMemory) × (is_length length ≡ false → e ≡ Fault.BadSettings)) }
    {
        let length = file_length(length)?;
        Ok(Digests {
            leaves: Vec::with_capacity(heap, pieces_of(length) as usize)?,
            length,
            taken: 0,
        })
    }

    // Takes in a piece.
    fn push(&mut self, piece: &[u8])
        requires sized { (0 < Lists.length piece.now) × (Lists.length piece.now ≤ 16384) }
        requires next { follows self.old (Lists.length piece.now) ≡ true }
        ensures { TakesIn piece.now self.old self.new }
    {
        self.leaves.push_reserved(leaf_of(piece));
        self.taken += piece.len() as u64;
    }

    // Takes in four whole pieces side by side.
    fn push_four(&mut self, group: &[u8])
        requires sized { Lists.length group.now ≡ 65536 }
        requires next { follows self.old 65536 ≡ true }
        ensures { TakesIn group.now self.old self.new }
    {
        self.leaves.extend_from_slice(&leaves_of(group)).unwrap();
        self.taken += FOUR_PIECES as u64;
    }

    // Takes in pieces one after the other, the last one perhaps shorter.
    fn push_rest(&mut self, part: &[u8])
        requires { follows self.old (Lists.length part.now) ≡ true }
        ensures { TakesIn part.now self.old self.new }
    {
        for piece in part.chunks(PIECE) {
            self.push(piece);
        }
    }

    // Takes in pieces, four at a time as long as there are so many.
    fn push_all(&mut self, part: &[u8])
        requires { follows self.old (Lists.length part.now) ≡ true }
        ensures { TakesIn part.now self.old self.new }
    {
        let groups = part.chunks_exact(FOUR_PIECES);
        let rest = groups.remainder();
        for group in groups {
            self.push_four(group);
        }
        self.push_rest(rest);
    }

    // Takes in the next part of the file; refused where what came before doesn't end with a piece, or the file has no more.
    pub fn take_in(&mut self, part: &[u8]) -> Result<(), Fault>
        ensures taken { is_ok result ≡ follows self.old (Lists.length part.now) }
        ensures after { MatchResult result (λ _. TakesIn part.now self.old self.new) (λ e. (self.new ≡ self.old) × (e ≡ Fault.BadPiece) × (number e ≡ 2)) }
        ensures same { self.new.length ≡ self.old.length }
    {
        if self.taken % PIECE as u64 != 0 || part.len() as u64 > self.length - self.taken {
            return Err(Fault::BadPiece);
        }
        self.push_all(part);
        Ok(())
    }
}
