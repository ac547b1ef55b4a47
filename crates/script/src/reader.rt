// A whole script, read line by line.
ghost use Rattle.std.specs.Prelude.{◌≡◌, ◌≤◌, true, ◌&&◌, is_ok, vec_len, vec_capacity};
ghost use Rattle.script.specs.Sheets.{Reads, sheet, whole, blank_sheet, with_peer, with_event, with_words, numbered, more, finished, script, kept, kept_line, kept_lines};
ghost use Rattle.script.specs.Sound.{ScriptSound};
ghost use Rattle.script.specs.Words.{words, lines};

use crate::draft::Draft;
use crate::links::first_bad_break;
use crate::places::{find_peer, place_of};
use crate::sheet::{Event, LinkEvent, Peer, ReadFault, Script};
use crate::statement::{Expected, Statement, read_statement};
use crate::words::{Lines, Words};
use std::alloc::Global;

impl Draft {
    // A draft that says nothing yet.
    fn new(heap: Global) -> Draft
        ensures { sheet result ≡ blank_sheet }
    {
        Draft {
            peers: Vec::new(heap),
            events: Vec::new(heap),
            rounds: None,
        }
    }

    // One peer more, from a line, at its place by its number.
    fn with_peer(mut self, line: u64, peer: Peer) -> Result<Draft, ReadFault>
        ensures { Reads sheet ((is_ok (with_peer peer (sheet self)) ≡ true) × (vec_capacity self.peers ≤ vec_len self.peers)) (numbered line (with_peer peer (sheet self))) result }
    {
        match find_peer(self.peers.as_slice(), peer.id) {
            Ok(_) => Err(ReadFault::at(line, Expected::NewPeer)),
            Err(place) => {
                self.peers.insert(place, peer)?;
                Ok(self)
            }
        }
    }

    // One event more, at its place by its tick, after those of the lines above.
    fn with_event(mut self, event: Event) -> Result<Draft, ReadFault>
        ensures { Reads sheet ((is_ok (with_event event (sheet self)) ≡ true) × (vec_capacity self.events ≤ vec_len self.events)) (numbered event.line (with_event event (sheet self))) result }
    {
        let peers = self.peers.as_slice();
        if find_peer(peers, event.a).is_err() || find_peer(peers, event.b).is_err() {
            return Err(ReadFault::at(event.line, Expected::KnownPeer));
        }
        if event.a == event.b {
            return Err(ReadFault::at(event.line, Expected::OtherPeer));
        }
        let place = place_of(self.events.as_slice(), event.at);
        self.events.insert(place, event)?;
        Ok(self)
    }

    // One statement more, from a line; none may follow `rounds`.
    fn with(mut self, line: u64, statement: Statement) -> Result<Draft, ReadFault>
        ensures { Reads sheet ((kept statement && is_ok (more line (sheet self) statement)) ≡ true) (numbered line (more line (sheet self) statement)) result }
    {
        if self.rounds.is_some() {
            return Err(ReadFault::at(line, Expected::Nothing));
        }
        match statement {
            Statement::Peer(id) => self.with_peer(line, Peer { id, honest: true }),
            Statement::False(id) => self.with_peer(line, Peer { id, honest: false }),
            Statement::Link { a, b, at, delay } => self.with_event(Event {
                at,
                a,
                b,
                what: LinkEvent::Opens(delay),
                line,
            }),
            Statement::Break { a, b, at } => self.with_event(Event {
                at,
                a,
                b,
                what: LinkEvent::Breaks,
                line,
            }),
            Statement::Rounds(count) => {
                self.rounds = Some(count);
                Ok(self)
            }
        }
    }

    // One line more: nothing, or a statement.
    fn with_line(self, number: u64, line: &[u8]) -> Result<Draft, ReadFault>
        ensures { Reads sheet (kept_line number (sheet self) (words line.now) ≡ true) (numbered number (with_words number (sheet self) (words line.now))) result }
    {
        if Words::of(line).next().is_none() {
            return Ok(self);
        }
        let statement = read_statement(line).map_err(|expected| ReadFault::at(number, expected))?;
        self.with(number, statement)
    }

    // The whole script after its last line: it says how many rounds, and breaks only links that stand.
    fn finished(self, last: u64) -> Result<Script, ReadFault>
        ensures { Reads whole ⊥ (finished last (sheet self)) result }
    {
        let Draft {
            peers,
            events,
            rounds,
        } = self;
        let rounds = rounds.ok_or(ReadFault::at(last, Expected::Rounds))?;
        match first_bad_break(events.as_slice()) {
            None => Ok(Script {
                peers,
                events,
                rounds,
            }),
            Some(line) => Err(ReadFault::at(line, Expected::StandingLink)),
        }
    }
}

// The script that a text is, or why it is none.
pub fn read(heap: Global, text: &[u8]) -> Result<Script, ReadFault>
    ensures said { Reads whole (kept_lines 0 blank_sheet (lines text.now) ≡ true) (script text.now) result }
    ensures sound { ScriptSound }
{
    let mut draft = Draft::new(heap);
    // Counted beside the loop, for the last line's number is wanted after it.
    let mut number: u64 = 0;
    for line in Lines::of(text) {
        number = number.saturating_add(1);
        draft = draft.with_line(number, line)?;
    }
    draft.finished(number)
}
