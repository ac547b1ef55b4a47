// A script as far as it is read, with its peers by their numbers and its events by their ticks.
ghost use Rattle.std.specs.Prelude.{◌<◌, ◌≤◌, AllPairs};

use crate::sheet::{Event, Peer};

// Its lists are the script's own: maps would be copied into them at the end, where memory may lack.
#[derive(Drop)]
pub(crate) struct Draft {
    pub(crate) peers: Vec<Peer>,
    pub(crate) events: Vec<Event>,
    pub(crate) rounds: Option<u64>,
    ghost peers_rise: { AllPairs (λ p q. p.id < q.id) peers.items },
    ghost events_rise: { AllPairs (λ e f. e.at ≤ f.at) events.items },
}
