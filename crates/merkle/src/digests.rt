// The leaf digests of a file that is taken in from its beginning.
ghost use Rattle.std.specs.Prelude.{◌≡◌, ◌≤◌, vec_len, vec_capacity};
ghost use Rattle.bytetree.specs.Pieces.{piece_count};
ghost use Rattle.merkle.specs.Lengths.{IsLength};

#[derive(Drop)]
pub struct Digests {
    pub(crate) leaves: Vec<[u8; 32]>,
    // How long the file is, and how much of it was taken in.
    pub(crate) length: u64,
    pub(crate) taken: u64,
    ghost possible: { IsLength length },
    ghost within: { taken ≤ length },
    ghost counted: { vec_len leaves ≡ piece_count taken },
    ghost room: { piece_count length ≤ vec_capacity leaves },
}
