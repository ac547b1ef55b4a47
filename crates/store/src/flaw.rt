// What is wrong with bytes that are no record, and with a record that can't be written.
ghost use Rattle.std.specs.Prelude.{Some};
ghost use Rattle.store.specs.Words.{flaw_words, unfit_words};

use std::error::Error;
use std::fmt;

#[derive(Clone, Copy, PartialEq, Eq, Debug)]
pub enum Flaw {
    // They aren't 1,024.
    Size,
    // More than 16 digests in the path.
    Count,
    // A byte after the path that isn't 0.
    Rest,
}

impl fmt::Display for Flaw {
    ghost output = { λ f. Some (flaw_words f) };

    fn fmt<W: fmt::Write>(&self, f: &mut fmt::Formatter<W>) -> fmt::Result {
        f.write_str(match self {
            Flaw::Size => "a record is 1024 bytes",
            Flaw::Count => "a path has at most 16 digests",
            Flaw::Rest => "only zeros come after a path",
        })
    }
}

impl Error for Flaw {}

// Why a record isn't written.
#[derive(Clone, Copy, PartialEq, Eq, Debug)]
pub enum Unfit {
    // The block isn't 1,024 bytes.
    Block,
    // The path isn't a whole number of digests, at most 16.
    Path,
}

impl fmt::Display for Unfit {
    ghost output = { λ u. Some (unfit_words u) };

    fn fmt<W: fmt::Write>(&self, f: &mut fmt::Formatter<W>) -> fmt::Result {
        f.write_str(match self {
            Unfit::Block => "a record is written to 1024 bytes",
            Unfit::Path => "a path is a whole number of digests, at most 16",
        })
    }
}

impl Error for Unfit {}
