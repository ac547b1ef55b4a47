// An honest peer as far as it is played.
ghost use Rattle.std.specs.Prelude.{◌≡◌, []};
ghost use Rattle.arena.specs.Seats.{seat, reseated, begun};
ghost use Rattle.rotation.specs.Rows.{meant_all};

use rotation::{Change, Rotation};

#[derive(Clone, Copy)]
pub struct Node {
    pub id: u64,
    pub rotation: Rotation,
    // Who has the turn in this round.
    pub holder: Option<u64>,
}

impl Node {
    // A peer with nobody in its rotation.
    pub(crate) fn new(id: u64) -> Node
        ensures { seat result ≡ record { id = id; row = []; holder = [] } }
    {
        Node {
            id,
            rotation: Rotation::new(),
            holder: None,
        }
    }

    // Its rotation changes.
    pub(crate) fn change(&mut self, changes: &[Change])
        ensures { seat self.new ≡ reseated (meant_all changes.now) (seat self.old) }
    {
        self.rotation = self.rotation.change_all(changes);
    }

    // A round begins: the first of its rotation has the turn.
    pub(crate) fn begin(&mut self)
        ensures { seat self.new ≡ begun (seat self.old) }
    {
        (self.rotation, self.holder) = self.rotation.turn();
    }
}
