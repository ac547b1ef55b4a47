// A part of a tree of which only the leaf digests are at hand.
ghost use Rattle.std.specs.Prelude.{◌≡◌, ◌+◌, ◌<◌, ◌≤◌, length};
ghost use Rattle.bytetree.specs.ByteTree.{root};
ghost use Rattle.merkle.specs.Nodes.{inner};

use crate::part::Part;
use crate::tree::node_over;
use swarm::split;

// At least one leaf digest, and no more than a file has pieces.
#[derive(Clone, Copy)]
pub(crate) struct Row<'a> {
    pub(crate) leaves: &'a [[u8; 32]],
    ghost some: { 0 < length leaves.now },
    ghost few: { length leaves.now ≤ 65536 },
}

// The root is computed from the leaves.
impl Part for Row<'_> {
    ghost leaves = { λ row. row.leaves.now };

    ghost few = { λ row. row.few };

    fn len(self) -> usize {
        self.leaves.len()
    }

    fn halves(self) -> Option<(Self, Self)> {
        if self.leaves.len() == 1 {
            return None;
        }
        let at = split(self.leaves.len() as u32) as usize;
        let (left, right) = self.leaves.split_at(at);
        Some((Row { leaves: left }, Row { leaves: right }))
    }

    fn root(self) -> [u8; 32] {
        match self.halves() {
            None => self.leaves[0],
            Some((left, right)) => node_over(&left.root(), &right.root()),
        }
    }
}

impl Row<'_> {
    // The root over it, and each node on the way is put at its place: between the nodes of the left half and those of the right.
    // It stands beside `root`, which is lent no place for nodes where only the root is wanted.
    pub(crate) fn fill(self, nodes: &mut [[u8; 32]]) -> [u8; 32]
        requires { length nodes.old + 1 ≡ length self.leaves.now }
        ensures top { result ≡ root self.entry.leaves.now }
        ensures filled { nodes.new ≡ inner self.entry.leaves.now }
    {
        let Some((left, right)) = self.halves() else {
            return self.leaves[0];
        };
        let at = left.len();
        let top_left = left.fill(&mut nodes[0..at - 1]);
        let top_right = right.fill(&mut nodes[at..]);
        let top = node_over(&top_left, &top_right);
        nodes[at - 1] = top;
        top
    }
}
