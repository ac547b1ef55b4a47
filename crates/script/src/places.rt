// Where peers and events stand in a script.
ghost use Rattle.std.specs.Prelude.{◌≡◌, ◌<◌, ◌≤◌, is_ok, AllPairs, IfErr, length};
ghost use Rattle.script.specs.Sheets.{known, place, number_of, tick_of};

use crate::sheet::{Event, Peer};

// At which place the peer of that number stands, or else would stand.
pub(crate) fn find_peer(peers: &[Peer], id: u64) -> Result<usize, usize>
    requires { AllPairs (λ p q. number_of p < number_of q) peers.now }
    ensures known { is_ok result ≡ known id peers.now }
    ensures place { IfErr result (λ at. at ≡ place number_of id peers.now) }
    ensures bound { IfErr result (λ at. at ≤ length peers.now) }
{
    peers.binary_search_by_key(&id, |peer| peer.id)
}

// Before which event one of that tick stands: the first of a greater tick.
pub(crate) fn place_of(events: &[Event], tick: u64) -> usize
    requires { AllPairs (λ e f. tick_of e ≤ tick_of f) events.now }
    ensures value { result ≡ place tick_of tick events.now }
    ensures bound { result ≤ length events.now }
{
    events.partition_point(|event| event.at <= tick)
}
