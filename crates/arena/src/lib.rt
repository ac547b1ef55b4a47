// A swarm that is played by a script: so far who has the turn at each honest peer, round by round.
#![tactic(auto)]

mod node;
mod play;

pub use node::Node;
pub use play::{begin_round, seat_all};
