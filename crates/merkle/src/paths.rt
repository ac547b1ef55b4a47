// How the path of a place is found on the way down to it.
ghost use Rattle.std.specs.Prelude.{◌≡◌, ◌+◌, ◌*◌, ◌<◌, [], ◌∷◌, ◌++◌, length};
ghost use Rattle.bytetree.specs.ByteTree.{joined_up};
ghost use Rattle.merkle.specs.Paths.{PathOf, steps};

use crate::part::Part;
use crate::path::Path;

impl Path {
    fn none() -> Path
        ensures { steps result ≡ [] }
    {
        Path {
            digests: [[0; 32]; 16],
            count: 0,
        }
    }

    fn with(self, digest: [u8; 32]) -> Path
        requires { self.count < 16 }
        ensures digests { steps result ≡ steps self ++ (digest ∷ []) }
        ensures counted { result.count ≡ self.count + 1 }
    {
        let mut digests = self.digests;
        digests[self.count] = digest;
        Path {
            digests,
            count: self.count + 1,
        }
    }

    // How many digests it has.
    pub fn count(self) -> usize
        ensures { result ≡ length (steps self) }
    {
        self.count
    }

    // The digests one after the other, as they are sent and kept.
    pub fn bytes(&self) -> &[u8]
        ensures value { result.now ≡ joined_up (steps self.now) }
        ensures len { length result.now ≡ 32 * length (steps self.now) }
    {
        self.digests[0..self.count].as_flattened()
    }
}

// The path of place m below a part of the tree: at each half on the way down, the root of the other half.
pub(crate) fn path_of<P: Part>(whole: P, m: u32) -> Option<Path>
    ensures { PathOf m (length (P.leaves whole)) (P.leaves whole) result }
{
    let mut place = m as usize;
    if place >= whole.len() {
        return None;
    }
    let mut found = Path::none();
    let mut part = whole;
    while let Some((left, right)) = part.halves() {
        let at = left.len();
        if place < at {
            found = found.with(right.root());
            part = left;
        } else {
            found = found.with(left.root());
            part = right;
            place -= at;
        }
    }
    Some(found)
}
