// How a round is printed for one peer.
use arena::Node;
use std::fmt;

// Who has the turn at a peer, or a dash where nobody has it.
#[derive(Clone, Copy)]
pub struct Turn<'a>(pub &'a Node);

impl fmt::Display for Turn<'_> {
    fn fmt<W: fmt::Write>(&self, f: &mut fmt::Formatter<W>) -> fmt::Result {
        let id = self.0.id;
        match self.0.holder {
            Some(holder) => write!(f, "{id}:{holder}"),
            None => write!(f, "{id}:-"),
        }
    }
}
