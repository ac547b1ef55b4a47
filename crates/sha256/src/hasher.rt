// A hasher: a stream that is short enough for its padding.
ghost use Rattle.std.specs.Prelude.{◌^◌, ◌<◌, Some, codes};

use crate::stream::Stream;
use std::error::Error;
use std::fmt;

#[derive(Clone, Copy)]
pub struct Hasher {
    pub(crate) stream: Stream,
    ghost short: { stream.count < 2 ^ 61 },
}

// More bytes than a padding can count.
#[derive(Clone, Copy, PartialEq, Eq, Debug)]
pub struct TooLong;

impl fmt::Display for TooLong {
    ghost output = { λ _. Some (codes "more bytes than SHA-256 can count") };

    fn fmt<W: fmt::Write>(&self, f: &mut fmt::Formatter<W>) -> fmt::Result {
        f.write_str("more bytes than SHA-256 can count")
    }
}

impl Error for TooLong {}
