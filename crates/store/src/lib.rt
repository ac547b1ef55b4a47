// The record of a piece as a block of bytes: what is written, and what is read of any byte string.
#![tactic(auto)]

mod flaw;
mod records;

pub use flaw::{Flaw, Unfit};
pub use records::{Record, read_record, write_record};
