// What a rotation does, each step by value.
ghost use Rattle.std.specs.Prelude.{◌≡◌, ◌<◌, List, [], ◌∷◌, ◌++◌, is_ok, MatchResult};
ghost use Rattle.rotation.specs.Rows.{row, room, meant, meant_all, nobody, Fair};
ghost use Rattle.std.specs.Option.{option_to_list};
ghost use Rattle.swarm.specs.Code.{taken};
ghost use Rattle.swarm.specs.Faults.{number};
ghost use Rattle.swarm.specs.Levels.{TurnAt};
ghost use Rattle.swarm.specs.Turns as Turns;
ghost use Rattle.swarm.specs.Turns.{Joins, is_in, without, changed, turned, first, next};

use crate::change::Change;
use crate::row::Rotation;
use swarm::Fault;

impl Rotation {
    // A rotation with nobody in it.
    pub fn new() -> Rotation
        ensures { row result ≡ [] }
    {
        Rotation {
            ids: [0; 64],
            count: 0,
        }
    }

    // Is `id` in the rotation?
    pub fn has(self, id: u64) -> bool
        ensures { result ≡ is_in id (row self) }
    {
        self.ids[..self.count].iter().any(|other| *other == id)
    }

    // Can `id` join? It is there, or there are fewer than 64.
    pub fn takes(self, id: u64) -> bool
        ensures { result ≡ room id (row self) }
    {
        self.has(id) || self.count < 64
    }

    // With `id` at the end, or as it is where `id` is there; a 65th is refused.
    pub fn join(mut self, id: u64) -> Result<Rotation, Fault>
        ensures taken { is_ok result ≡ room id (row self) }
        ensures after { MatchResult result (λ s. row s ≡ changed (Joins id ∷ []) (row self)) (λ e. (e ≡ Fault.TooMany) × (number e ≡ 8)) }
    {
        if self.has(id) {
            return Ok(self);
        }
        if self.count >= 64 {
            return Err(Fault::TooMany);
        }
        self.push(id);
        Ok(self)
    }

    // `id` comes at the end, where there is room.
    fn push(&mut self, id: u64)
        requires { self.old.count < 64 }
        ensures { row self.new ≡ row self.old ++ id ∷ [] }
    {
        self.ids[self.count] = id;
        self.count += 1;
    }

    // Without `id`, the others in their order.
    pub fn leave(self, id: u64) -> Rotation
        ensures { row result ≡ without id (row self) }
    {
        // Written here and counted in a local: with `push` on a new rotation it took 1.2 to 1.3 times as long.
        let mut ids = self.ids;
        let mut count = 0;
        for other in &self.ids[..self.count] {
            if *other != id {
                ids[count] = *other;
                count += 1;
            }
        }
        Rotation { ids, count }
    }

    // The first has the turn, and goes to the end.
    pub fn turn(self) -> (Rotation, Option<u64>)
        ensures after { row result.0 ≡ turned (row self) }
        ensures holder { option_to_list result.1 ≡ first (row self) }
        ensures fair { (cs : List Turns.Change) → Fair (row self) (option_to_list result.1) cs (changed cs (row result.0)) }
        ensures round { TurnAt }
    {
        let count = self.count;
        if count == 0 {
            return (self, None);
        }
        let mut ids = self.ids;
        let holder = ids[0];
        ids[..count].rotate_left(1);
        (Rotation { ids, count }, Some(holder))
    }

    // One change; a 65th that would join is left out.
    fn change(self, change: Change) -> Rotation
        ensures { row result ≡ changed (taken nobody (row self) (meant change ∷ [])) (row self) }
    {
        match change {
            Change::Join(id) => self.join(id).unwrap_or(self),
            Change::Leave(id) => self.leave(id),
        }
    }

    // All changes, one after the other.
    pub fn change_all(self, changes: &[Change]) -> Rotation
        ensures { row result ≡ changed (taken nobody (row self) (meant_all changes.now)) (row self) }
    {
        // A loop: with a `fold` it took from a tenth to a third more instructions.
        let mut after = self;
        for change in changes {
            after = after.change(*change);
        }
        after
    }

    // From one round to the next: the turn, then what changes in the round.
    pub fn next(self, changes: &[Change]) -> (Rotation, Option<u64>)
        ensures after { row result.0 ≡ next (taken nobody (turned (row self)) (meant_all changes.now)) (row self) }
        ensures holder { option_to_list result.1 ≡ first (row self) }
        ensures fair { Fair (row self) (option_to_list result.1) (taken nobody (turned (row self)) (meant_all changes.now)) (row result.0) }
    {
        let (after, holder) = self.turn();
        (after.change_all(changes), holder)
    }
}
