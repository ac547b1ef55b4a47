// A part of a tree with the nodes above its leaves at hand.
ghost use Rattle.std.specs.Prelude.{◌≡◌};
ghost use Rattle.merkle.specs.Nodes.{inner};

use crate::part::Part;
use crate::row::Row;

#[derive(Clone, Copy)]
pub(crate) struct Branch<'a> {
    pub(crate) row: Row<'a>,
    pub(crate) nodes: &'a [[u8; 32]],
    ghost above: { nodes.now ≡ inner row.leaves.now },
}

// The root is read from the nodes.
impl Part for Branch<'_> {
    ghost leaves = { λ branch. branch.row.leaves.now };

    ghost few = { λ branch. branch.row.few };

    fn len(self) -> usize {
        self.row.len()
    }

    fn halves(self) -> Option<(Self, Self)> {
        let (left, right) = self.row.halves()?;
        let at = left.len();
        let before = &self.nodes[0..at - 1];
        let after = &self.nodes[at..];
        Some((
            Branch {
                row: left,
                nodes: before,
            },
            Branch {
                row: right,
                nodes: after,
            },
        ))
    }

    fn root(self) -> [u8; 32] {
        match self.row.halves() {
            None => self.row.leaves[0],
            Some((left, _)) => self.nodes[left.len() - 1],
        }
    }
}
