// What the tree over the pieces of a file is made of: its leaves and its nodes.
ghost use Rattle.std.specs.Prelude.{◌≡◌, ◌≤◌};
ghost use Rattle.std.proofs.Math.ListN as Lists;
ghost use Rattle.bytetree.specs.ByteTree.{leaf, leaves, node};

use crate::lengths::PIECE;
use sha256::{digest_after, digest_four};

// The digest of a piece, which is never too long for one.
pub(crate) fn leaf_of(piece: &[u8]) -> [u8; 32]
    requires { Lists.length piece.now ≤ 16384 }
    ensures { result ≡ leaf piece.now }
{
    digest_after(0, piece).unwrap()
}

// The digests of four whole pieces, side by side.
pub(crate) fn leaves_of(group: &[u8]) -> [[u8; 32]; 4]
    requires { Lists.length group.now ≡ 65536 }
    ensures { result ≡ leaves group.now }
{
    let (pieces, _) = group.as_chunks::<PIECE>();
    digest_four(0, [&pieces[0], &pieces[1], &pieces[2], &pieces[3]]).unwrap()
}

// The digest of a node over two others, which are never too long for one.
pub(crate) fn node_over(left: &[u8; 32], right: &[u8; 32]) -> [u8; 32]
    ensures { result ≡ node left.now right.now }
{
    digest_after(1, [*left, *right].as_flattened()).unwrap()
}
