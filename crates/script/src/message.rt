// What is said of a script that can't be read.
ghost use Rattle.std.specs.Prelude.{Some};
ghost use Rattle.script.specs.Messages.{expected_words, line_words, fault_words};

use crate::sheet::{BadLine, ReadFault};
use crate::statement::Expected;
use std::error::Error;
use std::fmt;

// What was expected, in words that go on after "expected".
impl fmt::Display for Expected {
    ghost output = { λ e. Some (expected_words e) };

    fn fmt<W: fmt::Write>(&self, f: &mut fmt::Formatter<W>) -> fmt::Result {
        f.write_str(match self {
            Expected::Statement => "a statement: peer, false, link, break or rounds",
            Expected::Played =>
                "one of the statements that are played so far: peer, false, link, break or rounds",
            Expected::PeerNumber => "a peer's number, from 1",
            Expected::NewPeer => "a peer that no line above declares",
            Expected::KnownPeer => "peers that lines above declare",
            Expected::OtherPeer => "two different peers",
            Expected::At => "the word at and a tick",
            Expected::Tick => "a tick",
            Expected::Delay => "the word delay, or the end of the line",
            Expected::DelayTicks => "a delay from 1 to 8 ticks",
            Expected::Count => "a number of rounds, below 4294967296",
            Expected::LineEnd => "the end of the line",
            Expected::StandingLink => "a link that stands at that tick",
            Expected::Nothing => "nothing after rounds",
            Expected::Rounds => "rounds as the last statement",
        })
    }
}

impl fmt::Display for BadLine {
    ghost output = { λ b. Some (line_words b) };

    fn fmt<W: fmt::Write>(&self, f: &mut fmt::Formatter<W>) -> fmt::Result {
        let BadLine { line, expected } = *self;
        write!(f, "line {line}: expected {expected}")
    }
}

impl fmt::Display for ReadFault {
    ghost output = { λ f. Some (fault_words f) };

    fn fmt<W: fmt::Write>(&self, f: &mut fmt::Formatter<W>) -> fmt::Result {
        match self {
            ReadFault::Line(bad) => write!(f, "{bad}"),
            ReadFault::OutOfMemory => write!(f, "there is no memory for it"),
        }
    }
}

impl Error for Expected {}

impl Error for BadLine {}

impl Error for ReadFault {}
