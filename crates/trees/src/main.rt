// The trees of files of 1 to 40 pieces, and what is said of their pieces and paths, as they are and damaged.
#![tactic(auto)]

mod damaging;
mod drawing;
mod known;
mod trying;

use drawing::drawn;
use known::Known;
use std::fmt;
use trying::tries;
use wire::Hex;

const MOST: u8 = 40;

fn main(rt: HostRuntime) -> anyhow::Result<()> {
    println!(rt; "pieces, root, the same by one piece, by three, by six, in the tree")?;
    println!(rt;
        "  place, paths alike, right, piece turned, path turned, other path, short, long, ragged, beside"
    )?;
    for pieces in 1..=MOST {
        show(&rt, pieces)?;
    }
    Ok(())
}

// Prints the root of a file of so many pieces, and rows for some of its places, the last one among them.
fn show(rt: &HostRuntime, pieces: u8) -> anyhow::Result<()> {
    let file = drawn(rt.alloc(), pieces)?;
    let known = Known::of(rt.alloc(), &file)?;
    let root = known.numbers.root();
    println!(rt; "{pieces} {}{}", Hex(&root), Row(&known.agreements))?;
    for place in 0..pieces {
        if (pieces - 1 - place) % (1 + pieces / 8) == 0 {
            let answers = tries(rt.alloc(), &file, &known, place)?;
            println!(rt; "  {place}{}", Row(&answers))?;
        }
    }
    Ok(())
}

// Answers at the end of a line.
#[derive(Clone, Copy)]
struct Row<'a>(&'a [bool]);

impl fmt::Display for Row<'_> {
    fn fmt<W: fmt::Write>(&self, f: &mut fmt::Formatter<W>) -> fmt::Result {
        for answer in self.0 {
            write!(f, "{}", if *answer { " yes" } else { " no" })?;
        }
        Ok(())
    }
}
