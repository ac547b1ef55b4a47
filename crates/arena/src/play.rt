// The rounds of a script: links come about and break, and at each beginning of a round the first of each rotation has the turn.
ghost use Rattle.std.specs.Prelude.{◌≡◌, ◌<◌, ◌≤◌, map, length, MatchResult};
ghost use Rattle.arena.specs.Fairness.{FairRounds};
ghost use Rattle.arena.specs.Seats.{seat, seats, seated, willing, change_at, linked, parted, happens, happen_till, due_till, begun, beginning, round_at};
ghost use Rattle.rotation.specs.Rows.{meant_all};

use crate::node::Node;
use rotation::Change;
use script::{Event, LinkEvent, Peer};
use std::alloc::{AllocError, Global};

// Does peer `id` take a link to another? A faulty one always does.
fn is_willing(nodes: &[Node], id: u64, other: u64) -> bool
    ensures { result ≡ willing id other (seats nodes.now) }
{
    nodes
        .iter()
        .all(|node| node.id != id || node.rotation.takes(other))
}

// The rotation of peer `id` changes.
fn change_at(nodes: &mut [Node], id: u64, changes: &[Change])
    ensures { seats nodes.new ≡ map (change_at id (meant_all changes.now)) (seats nodes.old) }
{
    for node in nodes.iter_mut() {
        if node.id == id {
            node.change(changes);
        }
    }
}

// A link comes about if both take it, and ends an old one between them.
fn link(nodes: &mut [Node], a: u64, b: u64)
    ensures { seats nodes.new ≡ linked a b (seats nodes.old) }
{
    if is_willing(nodes, a, b) && is_willing(nodes, b, a) {
        change_at(nodes, a, &[Change::Leave(b), Change::Join(b)]);
        change_at(nodes, b, &[Change::Leave(a), Change::Join(a)]);
    }
}

// A link breaks.
fn part(nodes: &mut [Node], a: u64, b: u64)
    ensures { seats nodes.new ≡ parted a b (seats nodes.old) }
{
    change_at(nodes, a, &[Change::Leave(b)]);
    change_at(nodes, b, &[Change::Leave(a)]);
}

// What an event of the script does.
fn happen(nodes: &mut [Node], event: Event)
    ensures { seats nodes.new ≡ happens event (seats nodes.old) }
{
    match event.what {
        LinkEvent::Opens(_) => link(nodes, event.a, event.b),
        LinkEvent::Breaks => part(nodes, event.a, event.b),
    }
}

// What is due up to a tick happens; the answer is how many events that were.
fn happen_till(nodes: &mut [Node], events: &[Event], tick: u64) -> usize
    ensures after { seats nodes.new ≡ happen_till tick events.now (seats nodes.old) }
    ensures due { result ≡ due_till tick events.now }
    ensures bound { result ≤ length events.now }
{
    let due = events
        .iter()
        .position(|event| event.at > tick)
        .unwrap_or(events.len());
    for event in &events[..due] {
        happen(nodes, *event);
    }
    due
}

// What is due up to the beginning of a round happens, and then it begins at each peer; the answer is how many events happened.
pub fn begin_round(nodes: &mut [Node], events: &[Event], round: u64) -> usize
    ensures after { seats nodes.new ≡ round_at round events.now (seats nodes.old) }
    ensures due { result ≡ due_till (beginning round) events.now }
    ensures bound { result ≤ length events.now }
    ensures fair { FairRounds }
{
    let due = happen_till(nodes, events, round.saturating_mul(64));
    for node in nodes.iter_mut() {
        node.begin();
    }
    due
}

// The honest peers of a script, with nobody in their rotations; there can be no memory for them only if there are such.
pub fn seat_all(heap: Global, peers: &[Peer]) -> Result<Vec<Node>, AllocError>
    ensures { MatchResult result (λ v. seats v.items ≡ seated peers.now) (λ _. 0 < length (seated peers.now)) }
{
    let mut nodes = Vec::new(heap);
    // Each is pushed: with `collect`, which says nothing of when there is no memory, the proof of this contract didn't close.
    for peer in peers {
        if peer.honest {
            nodes.push(Node::new(peer.id))?;
        }
    }
    Ok(nodes)
}
