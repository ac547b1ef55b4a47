// Scripts that say what a swarm goes through: the reader.
#![tactic(auto)]

mod draft;
mod links;
mod message;
mod number;
mod parts;
mod places;
mod reader;
mod sheet;
mod statement;
mod words;

pub use reader::read;
pub use sheet::{BadLine, Event, LinkEvent, Peer, ReadFault, Script};
pub use statement::{Expected, Statement, read_statement};
