// The rotation of neighbors: the first has the turn and goes to the end, others join at the end and leave.
#![tactic(auto)]

mod change;
mod row;
mod turns;

pub use change::Change;
pub use row::Rotation;
