// What a file that was taken in is known by, and the paths of its pieces.
ghost use Rattle.std.specs.Prelude.{◌≡◌, ℕ, ◌<◌, ◌≤◌, true, false, List, [], vec_len, MatchResult, slice_index_or};
ghost use Rattle.merkle.specs.Files.{Of, complete};
ghost use Rattle.merkle.specs.Paths.{PathOf};
ghost use Rattle.merkle.specs.Wholes.{Known, TreeOf};
ghost use Rattle.std.specs.Option as Options;
ghost use Rattle.swarm.specs.Faults.{number};

use crate::branch::Branch;
use crate::digests::Digests;
use crate::numbers::Numbers;
use crate::part::Part;
use crate::path::Path;
use crate::paths::path_of;
use crate::row::Row;
use crate::whole::Tree;
use std::alloc::Global;
use swarm::Fault;

impl Digests {
    // The leaves of the whole file, once all of it was taken in; refused with the fault that a part which can't follow gets, as
    // no type would say it more plainly.
    fn whole(&self) -> Result<Row<'_>, Fault>
        ensures { MatchResult result (λ row. (complete self.now ≡ true) × (row.leaves.now ≡ self.now.leaves.items)) (λ e. (complete self.now ≡ false) × (e ≡ Fault.BadPiece)) }
    {
        if self.taken != self.length {
            return Err(Fault::BadPiece);
        }
        Ok(Row {
            leaves: &self.leaves,
        })
    }

    // The file's numbers, once all of it was taken in.
    pub fn numbers(&self) -> Result<Numbers, Fault>
        ensures { MatchResult result (λ n. (complete self.now ≡ true) × ((file : List ℕ) → Of file self.now → Known file n)) (λ e. (complete self.now ≡ false) × (e ≡ Fault.BadPiece) × (number e ≡ 2)) }
    {
        Ok(Numbers {
            length: self.length,
            root: self.whole()?.root(),
        })
    }

    // The path of a piece among those that were taken in, found from their digests alone.
    pub fn path(&self, m: u32) -> Option<Path>
        ensures { PathOf m (vec_len self.now.leaves) self.now.leaves.items result }
    {
        if self.leaves.is_empty() {
            return None;
        }
        let row = Row {
            leaves: &self.leaves,
        };
        path_of(row, m)
    }
}

impl Tree {
    // The tree of a file that was taken in whole.
    pub fn new(heap: Global, digests: Digests) -> Result<Tree, Fault>
        ensures { MatchResult result (λ t. (complete digests ≡ true) × ((file : List ℕ) → Of file digests → TreeOf file t)) (λ e. (complete digests ≡ true → e ≡ Fault.NoMemory) × (complete digests ≡ false → e ≡ Fault.BadPiece)) }
    {
        let row = digests.whole()?;
        let mut nodes = Vec::from_elem(heap, [0u8; 32], row.leaves.len() - 1)?;
        let root = row.fill(&mut nodes);
        let Digests { leaves, length, .. } = digests;
        Ok(Tree {
            numbers: Numbers { length, root },
            leaves,
            nodes,
        })
    }

    pub fn numbers(&self) -> Numbers
        ensures { result ≡ self.now.numbers }
    {
        self.numbers
    }

    // The leaf digest of a piece.
    pub fn leaf(&self, m: u32) -> Option<[u8; 32]>
        ensures { Options.MatchOption result (vec_len self.now.leaves ≤ m) (λ d. (m < vec_len self.now.leaves) × (d ≡ slice_index_or self.now.leaves.items m [])) }
    {
        self.leaves.get(m as usize).copied()
    }

    // The path of a piece, read from the nodes.
    pub fn path(&self, m: u32) -> Option<Path>
        ensures { PathOf m (vec_len self.now.leaves) self.now.leaves.items result }
    {
        let whole = Branch {
            row: Row {
                leaves: &self.leaves,
            },
            nodes: &self.nodes,
        };
        path_of(whole, m)
    }
}
