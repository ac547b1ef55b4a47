// What changes the rotation between two turns.
#[derive(Clone, Copy, PartialEq, Eq, Debug)]
pub enum Change {
    Join(u64),
    Leave(u64),
}
