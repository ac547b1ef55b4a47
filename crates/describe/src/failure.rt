// What can go wrong, and how it is said.
ghost use Rattle.std.specs.Prelude.{◌≡◌, Ok, IfOk};

use std::alloc::AllocError;
use std::{fmt, io};
use swarm::Fault;
use wire::Damage;

// What is wrong with a file.
#[derive(Clone, Copy, Debug)]
pub enum Wrong {
    NotOpened,
    NotRead,
    NotMade,
    // Also where it can't be put in its place.
    NotWritten,
    NoFile,
    NoLength,
    // The length of no file that can be shared: of one that is there, and in a description.
    BadLength,
    DescribedLength,
    BadName,
    NotThree,
    Changed,
    Damaged(Damage),
    // There is no memory, and what for.
    NoMemory(&'static str),
}

impl Wrong {
    // What a fault means: no memory for this, or else that.
    pub fn of(fault: Fault, memory: &'static str, other: Wrong) -> Wrong {
        match fault {
            Fault::NoMemory => Wrong::NoMemory(memory),
            _ => other,
        }
    }
}

impl fmt::Display for Wrong {
    fn fmt<W: fmt::Write>(&self, f: &mut fmt::Formatter<W>) -> fmt::Result {
        match self {
            Wrong::NotOpened => f.write_str("it can't be opened"),
            Wrong::NotRead => f.write_str("it can't be read"),
            Wrong::NotMade => f.write_str("it can't be made"),
            Wrong::NotWritten => f.write_str("it can't be written or put in its place"),
            Wrong::NoFile => f.write_str("it is no file"),
            Wrong::NoLength => f.write_str("its length can't be found"),
            Wrong::BadLength => f.write_str("its length is not 1 to 1073741824 (fault 11)"),
            Wrong::DescribedLength => f.write_str("its length can't be (fault 11)"),
            Wrong::BadName => f.write_str("its name is not 1 to 255 bytes (fault 11)"),
            Wrong::NotThree => {
                f.write_str("the file, its description and its records are to be three files")
            }
            Wrong::Changed => f.write_str("it changed while it was read"),
            Wrong::Damaged(damage) => write!(f, "no description (fault 11): {damage}"),
            Wrong::NoMemory(what) => write!(f, "there is no memory {what}"),
        }
    }
}

// Why the program ends with status 1.
#[derive(Clone, Copy, Debug)]
pub enum Failure<'a> {
    // Something is wrong with the file at a path.
    File { path: &'a str, wrong: Wrong },
    // Something is wrong with what is written beside a place.
    Part { place: &'a str, wrong: Wrong },
    // The command line asks for nothing that is known.
    Usage,
    // What can't be printed, or kept in memory, is not spoken of.
    Unsaid,
}

impl<'a> Failure<'a> {
    // Something wrong with the file at a path.
    pub fn of(path: &'a str, wrong: Wrong) -> Failure<'a> {
        Failure::File { path, wrong }
    }
}

impl Failure<'_> {
    // Says on standard error what went wrong.
    pub fn say(&self, rt: &HostRuntime) -> io::Result<()> {
        match self {
            Failure::File { path, wrong } => eprintln!(rt; "describe: {path}: {wrong}"),
            Failure::Part { place, wrong } => eprintln!(rt; "describe: {place}.part: {wrong}"),
            Failure::Usage => eprintln!(rt;
                "describe: expected [-v] FILE DESCRIPTION RECORDS, show DESCRIPTION, or check DESCRIPTION FILE [RECORDS]"
            ),
            Failure::Unsaid => Ok(()),
        }
    }
}

impl From<io::Error> for Failure<'_> {
    fn from(_error: io::Error) -> Self {
        Failure::Unsaid
    }
}

impl From<AllocError> for Failure<'_> {
    fn from(_error: AllocError) -> Self {
        Failure::Unsaid
    }
}

// A result that is else something wrong with a file.
pub trait OrFail<T> {
    // The value that it has.
    ghost holds: { Self → T → Type 0 };

    // The value, or else this is wrong with the file at the path.
    fn or_fail(self, path: &str, wrong: Wrong) -> Result<T, Failure<'_>>
        ensures { IfOk result (holds self) };
}

impl<T, E: Drop> OrFail<T> for Result<T, E> {
    ghost holds = { λ s value. s ≡ Ok value };

    fn or_fail(self, path: &str, wrong: Wrong) -> Result<T, Failure<'_>> {
        self.map_err(|_| Failure::of(path, wrong))
    }
}
