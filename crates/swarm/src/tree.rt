// Where the tree over the pieces of a file is split.
ghost use Rattle.std.specs.Prelude.{◌≡◌};
ghost use Rattle.swarm.specs.Levels.{WayUnique};
ghost use Rattle.swarm.specs.Promise.{WayExact};
ghost use Rattle.swarm.specs.Tree.{cut};

// The most pieces of a file.
pub fn most_pieces() -> u32
    ensures { result ≡ 65536 }
{
    65_536
}

// How many of `pieces` pieces stand on the left: the greatest power of two below their number, and 1 where there is none.
pub fn split(pieces: u32) -> u32
    ensures value { result ≡ cut pieces }
    ensures exact { WayExact }
    ensures unique { WayUnique }
{
    pieces.div_ceil(2).next_power_of_two()
}
