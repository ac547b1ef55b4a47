// Whether a piece and its path lead to the root of a file.
ghost use Rattle.std.specs.Prelude.{◌≡◌, ◌≤◌};
ghost use Rattle.bytetree.specs.ByteTree.{Leads, folds};
ghost use Rattle.bytetree.specs.Collision.{CollisionOrRight};
ghost use Rattle.bytetree.specs.Image.{ImageOfTerms, OwnLeads};
ghost use Rattle.merkle.specs.Decisions.{Decides};

use crate::numbers::Numbers;
use crate::tree::{leaf_of, node_over};
use swarm::split;

// What the path leads to from a digest at a place among so many; nothing where it is too long or too short for that place.
fn folded(pieces: u32, place: u32, digest: [u8; 32], path: &[[u8; 32]]) -> Option<[u8; 32]>
    ensures { result ≡ folds pieces place digest path.now }
{
    let Some((sibling, below)) = path.split_first() else {
        return (pieces == 1 && place == 0).then_some(digest);
    };
    if pieces < 2 {
        return None;
    }
    let left = split(pieces);
    if place < left {
        let inner = folded(left, place, digest, below)?;
        Some(node_over(&inner, sibling))
    } else {
        let inner = folded(pieces - left, place - left, digest, below)?;
        Some(node_over(sibling, &inner))
    }
}

// Whether these bytes with this path lead to the root at this place; each byte is hashed once, and nothing is allocated.
pub fn check(numbers: Numbers, place: u32, piece: &[u8], path: &[u8]) -> bool
    ensures exact { Decides result (Leads numbers.length numbers.root place piece.now path.now) }
    ensures right { CollisionOrRight }
    ensures own { OwnLeads }
    ensures image { ImageOfTerms }
{
    let Some(length) = numbers.piece_length(place) else {
        return false;
    };
    let (digests, over) = path.as_chunks::<32>();
    if piece.len() != length as usize || !over.is_empty() {
        return false;
    }
    folded(numbers.pieces(), place, leaf_of(piece), digests) == Some(numbers.root())
}
