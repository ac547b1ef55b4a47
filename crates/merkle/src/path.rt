// The path of a piece, by value.
ghost use Rattle.std.specs.Prelude.{◌≡◌, ◌≤◌, length};

// At most sixteen digests, the one next to the root first; a path is passed by value, and nothing is allocated for it.
#[derive(Clone, Copy)]
pub struct Path {
    pub(crate) digests: [[u8; 32]; 16],
    pub(crate) count: usize,
    ghost sized: { length digests ≡ 16 },
    ghost few: { count ≤ 16 },
}
