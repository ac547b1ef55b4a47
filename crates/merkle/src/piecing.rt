// What the numbers of a file say of its pieces.
ghost use Rattle.std.specs.Prelude.{◌≡◌, ◌<◌, ◌≤◌, is_ok, MatchResult};
ghost use Rattle.bytetree.specs.Image.{PiecesAddUp};
ghost use Rattle.bytetree.specs.Pieces.{piece_count, piece_length};
ghost use Rattle.merkle.specs.Lengths.{IsLength, is_length};
ghost use Rattle.std.specs.Option as Options;
ghost use Rattle.swarm.specs.Faults.{number};

use crate::lengths::{PIECE, file_length, pieces_of};
use crate::numbers::Numbers;
use swarm::Fault;

impl Numbers {
    // A length and a root; a length that no file has is refused.
    pub fn new(length: u64, root: [u8; 32]) -> Result<Numbers, Fault>
        ensures taken { is_ok result ≡ is_length length }
        ensures made { MatchResult result (λ n. (n.length ≡ length) × (n.root ≡ root)) (λ e. (e ≡ Fault.BadSettings) × (number e ≡ 11)) }
    {
        Ok(Numbers {
            length: file_length(length)?,
            root,
        })
    }

    // How many bytes the file has.
    pub fn length(self) -> u64
        ensures same { result ≡ self.length }
        ensures within { IsLength result }
    {
        self.length
    }

    // The root of the tree over the file's pieces.
    pub fn root(self) -> [u8; 32]
        ensures { result ≡ self.root }
    {
        self.root
    }

    // How many pieces the file has; their lengths add up to its length.
    pub fn pieces(self) -> u32
        ensures counted { result ≡ piece_count self.length }
        ensures within { (1 ≤ result) × (result ≤ 65536) }
        ensures add_up { PiecesAddUp }
    {
        pieces_of(self.length)
    }

    // How many bytes piece m has; nothing where there is no such piece.
    pub fn piece_length(self, m: u32) -> Option<u32>
        ensures { Options.MatchOption result (piece_count self.length ≤ m) (λ len. (m < piece_count self.length) × (len ≡ piece_length self.length m) × (1 ≤ len) × (len ≤ 16384)) }
    {
        if m >= self.pieces() {
            return None;
        }
        let piece = PIECE as u64;
        let left = self.length - piece * u64::from(m);
        Some(left.min(piece) as u32)
    }
}
