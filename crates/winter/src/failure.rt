// Why not all is played, and what is said of it on standard error.
use script::ReadFault;
use std::alloc::{AllocError, AllocFailed};
use std::{fmt, io};

#[derive(Drop)]
pub enum Failure {
    NoScripts,
    Script { path: String, wrong: Wrong },
    // What can't be printed, or kept in memory, is not spoken of.
    Unsaid,
}

// What is wrong with a script.
#[derive(Drop)]
pub enum Wrong {
    Unreadable,
    Fault(ReadFault),
}

impl Failure {
    // Says on standard error what went wrong.
    pub fn say(&self, rt: &HostRuntime) -> io::Result<()> {
        match self {
            Failure::NoScripts => eprintln!(rt; "winter: expected the names of scripts"),
            Failure::Script { path, wrong } => eprintln!(rt; "winter: {path}: {wrong}"),
            Failure::Unsaid => Ok(()),
        }
    }
}

impl fmt::Display for Wrong {
    fn fmt<W: fmt::Write>(&self, f: &mut fmt::Formatter<W>) -> fmt::Result {
        match self {
            Wrong::Unreadable => f.write_str("it can't be read"),
            Wrong::Fault(fault) => write!(f, "{fault}"),
        }
    }
}

impl From<io::Error> for Wrong {
    fn from(_e: io::Error) -> Wrong {
        Wrong::Unreadable
    }
}

impl From<ReadFault> for Wrong {
    fn from(fault: ReadFault) -> Wrong {
        Wrong::Fault(fault)
    }
}

impl From<io::Error> for Failure {
    fn from(_e: io::Error) -> Failure {
        Failure::Unsaid
    }
}

impl From<AllocError> for Failure {
    fn from(_e: AllocError) -> Failure {
        Failure::Unsaid
    }
}

impl<T: Drop> From<AllocFailed<T>> for Failure {
    fn from(_e: AllocFailed<T>) -> Failure {
        Failure::Unsaid
    }
}
