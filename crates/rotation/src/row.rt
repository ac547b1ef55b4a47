// The order in which neighbors have their turn, as an array of at most 64 ids.
ghost use Rattle.std.specs.Prelude.{◌≡◌, ◌≤◌, length};

// An array with its count, and no Model: it is `Copy` and takes no heap, and what stands past the count can't be told from the row.
#[derive(Clone, Copy)]
pub struct Rotation {
    pub(crate) ids: [u64; 64],
    pub(crate) count: usize,
    ghost sized: { length ids ≡ 64 },
    ghost few: { count ≤ 64 },
}
