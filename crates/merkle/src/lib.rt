// A file by the numbers of its description: its length, and the root of the tree over its pieces.
#![tactic(auto)]

mod branch;
mod checking;
mod digests;
mod knowing;
mod lengths;
mod numbers;
mod part;
mod path;
mod paths;
mod piecing;
mod row;
mod taking;
mod tree;
mod whole;

pub use checking::check;
pub use digests::Digests;
pub use numbers::Numbers;
pub use path::Path;
pub use whole::Tree;
