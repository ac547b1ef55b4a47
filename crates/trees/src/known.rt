// All that is known of a file: its numbers, the digests of its pieces, and its tree.
ghost use Rattle.std.specs.Prelude.{◌<◌};

use anyhow::Context;
use merkle::{Digests, Numbers, Tree};
use std::alloc::Global;

#[derive(Drop)]
pub(crate) struct Known {
    pub(crate) numbers: Numbers,
    pub(crate) digests: Digests,
    pub(crate) tree: Tree,
    // Whether the root is the same where the file is taken in piece by piece, by three, by six, and in the tree.
    pub(crate) agreements: [bool; 4],
}

impl Known {
    pub(crate) fn of(heap: Global, file: &[u8]) -> anyhow::Result<Known> {
        let digests = taken(heap, file, 1048576)?;
        let numbers = numbers_of(&digests)?;
        let root = numbers.root();
        let by_one = numbers_of(&taken(heap, file, 16384)?)?;
        let by_three = numbers_of(&taken(heap, file, 49152)?)?;
        let six = taken(heap, file, 98304)?;
        let by_six = numbers_of(&six)?;
        let tree = Tree::new(heap, six).ok().context("no tree")?;
        let others = [by_one, by_three, by_six, tree.numbers()];
        Ok(Known {
            numbers,
            digests,
            tree,
            agreements: others.map(|other| other.root() == root),
        })
    }
}

// The digests of a file that is taken in by parts of this many bytes.
fn taken(heap: Global, file: &[u8], size: usize) -> anyhow::Result<Digests>
    requires { 0 < size }
{
    let mut digests = Digests::new(heap, file.len() as u64)
        .ok()
        .context("no digests")?;
    for part in file.chunks(size) {
        digests.take_in(part).ok().context("a part was refused")?;
    }
    Ok(digests)
}

fn numbers_of(digests: &Digests) -> anyhow::Result<Numbers> {
    digests
        .numbers()
        .ok()
        .context("not all of the file was taken in")
}
