// What a script says, read and checked: its peers by number, its links by tick, and how many rounds are played.
ghost use Rattle.std.specs.Prelude.{◌≡◌};
ghost use Rattle.script.specs.declared.sheet.BadLine.{BadLine};
ghost use Rattle.script.specs.declared.sheet.ReadFault.TheVariants.{Line, OutOfMemory};

use crate::statement::Expected;
use std::alloc::AllocFailed;

#[derive(Clone, Copy, PartialEq, Eq, Debug)]
pub struct Peer {
    pub id: u64,
    // Does it keep to the rules, or only do what the script says?
    pub honest: bool,
}

// What comes of a link: an `Option` of the ticks would hold as much, and not say which event it is.
#[derive(Clone, Copy, PartialEq, Eq, Debug)]
pub enum LinkEvent {
    // The link comes about, with so many ticks for each message.
    Opens(u64),
    Breaks,
}

#[derive(Clone, Copy, PartialEq, Eq, Debug)]
pub struct Event {
    pub at: u64,
    pub a: u64,
    pub b: u64,
    pub what: LinkEvent,
    // The line of the script that says it.
    pub line: u64,
}

#[derive(Drop)]
pub struct Script {
    pub peers: Vec<Peer>,
    pub events: Vec<Event>,
    pub rounds: u64,
}

// A line that can't be, and what was expected there.
#[derive(Clone, Copy, PartialEq, Eq, Debug)]
pub struct BadLine {
    pub line: u64,
    pub expected: Expected,
}

// Why a script is not read.
#[derive(Clone, Copy, PartialEq, Eq, Debug)]
pub enum ReadFault {
    Line(BadLine),
    OutOfMemory,
}

impl ReadFault {
    // A line is bad, for something else was expected there.
    pub(crate) fn at(line: u64, expected: Expected) -> ReadFault
        ensures { result ≡ Line (record { line = line; expected = expected }) }
    {
        ReadFault::Line(BadLine { line, expected })
    }
}

impl<T: Drop> From<AllocFailed<T>> for ReadFault {
    ghost from_gives = { λ _ fault. fault ≡ OutOfMemory };

    fn from(_failed: AllocFailed<T>) -> ReadFault {
        ReadFault::OutOfMemory
    }
}
