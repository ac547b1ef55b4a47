// What the programs share: the name in a path, reading in whole parts, and the status that they end with.
#![tactic(auto)]

mod ending;
mod paths;
mod reading;

pub use ending::status;
pub use paths::name_of;
pub use reading::{AT_ONCE, PartError, each_part, read_part};
