// The faults of the protocol, each with the number that messages to people and other programs give it.
ghost use Rattle.std.specs.Prelude.{◌≡◌};
ghost use Rattle.swarm.specs.Faults.{number};

use std::alloc::AllocError;
use std::error::Error;
use std::fmt;

#[derive(Clone, Copy, PartialEq, Eq, Debug)]
pub enum Fault {
    // An unknown kind, a bad length, a message that may not stand there, or a spare bit that is set.
    BadMessage = 1,
    // A piece that isn't there, or a length that isn't the piece's.
    BadPiece = 2,
    // Another root or another length.
    OtherFile = 3,
    // A path that leads elsewhere.
    WrongPath = 4,
    // A piece that wasn't asked for.
    NotAsked = 5,
    // An ask by one who isn't granted.
    NotGranted = 6,
    // Somebody banned.
    Banned = 7,
    // All 64 neighbors are there.
    TooMany = 8,
    // A may of a round that isn't this or the one before.
    WrongRound = 9,
    // The disk doesn't write.
    DiskFailed = 10,
    // Settings or a description that can't be.
    BadSettings = 11,
    // The tracker is full.
    TrackerFull = 12,
    // There was no memory: no fault of the protocol, so it has none of its numbers.
    NoMemory = 0,
}

impl Fault {
    pub fn number(self) -> u8
        ensures { result ≡ number self }
    {
        self as u8
    }
}

impl fmt::Display for Fault {
    ghost use Rattle.std.specs.Prelude.{Some};
    ghost use Rattle.swarm.specs.Faults.{in_words};

    ghost output = { λ f. Some (in_words f) };

    fn fmt<W: fmt::Write>(&self, f: &mut fmt::Formatter<W>) -> fmt::Result {
        f.write_str(match self {
            Fault::BadMessage => "the message is wrong",
            Fault::BadPiece => "the piece isn't there or has another length",
            Fault::OtherFile => "it is another file",
            Fault::WrongPath => "the path leads elsewhere",
            Fault::NotAsked => "the piece wasn't asked for",
            Fault::NotGranted => "the neighbor isn't granted",
            Fault::Banned => "the neighbor is banned",
            Fault::TooMany => "all neighbors are there",
            Fault::WrongRound => "it is the may of another round",
            Fault::DiskFailed => "the disk doesn't write",
            Fault::BadSettings => "such settings can't be",
            Fault::TrackerFull => "the tracker is full",
            Fault::NoMemory => "there is no memory",
        })
    }
}

impl Error for Fault {}

// Want of memory is all that an allocator tells of.
impl From<AllocError> for Fault {
    ghost use Rattle.std.specs.Prelude.{◌≡◌};
    ghost use Rattle.swarm.specs.declared.fault.Fault.TheVariants.{NoMemory};

    ghost from_gives = { λ _ f. f ≡ NoMemory };

    fn from(_refused: AllocError) -> Fault {
        Self::NoMemory
    }
}
