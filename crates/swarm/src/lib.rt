// The promise of the whole swarm as theorems on contracts, and the faults of its protocol.
#![tactic(auto)]

mod bound;
mod fault;
mod honest;
mod tree;

pub use bound::{least_rounds_enough, rounds_enough};
pub use fault::Fault;
pub use honest::honest_is_code;
pub use tree::{most_pieces, split};
