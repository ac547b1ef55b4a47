// All digests of a file: its numbers, its leaves, and the nodes above them.
ghost use Rattle.std.specs.Prelude.{◌≡◌, ◌≤◌, vec_len};
ghost use Rattle.merkle.specs.Nodes.{inner};

use crate::numbers::Numbers;

#[derive(Drop)]
pub struct Tree {
    pub(crate) numbers: Numbers,
    pub(crate) leaves: Vec<[u8; 32]>,
    pub(crate) nodes: Vec<[u8; 32]>,
    ghost some: { 1 ≤ vec_len leaves },
    ghost few: { vec_len leaves ≤ 65536 },
    ghost above: { nodes.items ≡ inner leaves.items },
}
