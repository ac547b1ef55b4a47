// Numbers in a list with ranges, as `0,2,5-9`.
use std::alloc::{AllocError, Global};
use std::fmt;

// All numbers from the first to the last.
#[derive(Clone, Copy)]
struct Span {
    first: u32,
    last: u32,
}

impl fmt::Display for Span {
    fn fmt<W: fmt::Write>(&self, f: &mut fmt::Formatter<W>) -> fmt::Result {
        let (first, last) = (self.first, self.last);
        if first == last {
            write!(f, "{first}")
        } else {
            write!(f, "{first}-{last}")
        }
    }
}

// Numbers that were noted in ascending order.
#[derive(Drop)]
pub struct Spans {
    spans: Vec<Span>,
}

impl Spans {
    pub fn new(heap: Global) -> Spans {
        Spans {
            spans: Vec::new(heap),
        }
    }

    // Notes all numbers from the first to the last, which come after all others.
    pub fn note(&mut self, first: u32, last: u32) -> Result<(), AllocError> {
        if let Some(newest) = self.spans.last_mut() {
            if newest.last.saturating_add(1) == first {
                newest.last = last;
                return Ok(());
            }
        }
        self.spans.push(Span { first, last })?;
        Ok(())
    }
}

impl fmt::Display for Spans {
    fn fmt<W: fmt::Write>(&self, f: &mut fmt::Formatter<W>) -> fmt::Result {
        let Some((first, others)) = self.spans.split_first() else {
            return write!(f, "none");
        };
        write!(f, "{first}")?;
        for span in others {
            write!(f, ",{span}")?;
        }
        Ok(())
    }
}
