// Prints a description.
use crate::failure::{Failure, OrFail, Wrong};
use crate::job::Job;
use std::fmt;
use wire::Hex;

// A line each for the name, the length, the number of pieces and the root.
pub fn show<'a>(job: Job, path: &'a str) -> Result<(), Failure<'a>> {
    let mut room = [0u8; 298];
    let description = job.read_description(path, &mut room)?;
    let numbers = description.numbers().or_fail(path, Wrong::DescribedLength)?;
    println!(job.rt; "name: {}", Name(description.name))?;
    println!(job.rt; "length: {}", numbers.length())?;
    println!(job.rt; "pieces: {}", numbers.pieces())?;
    println!(job.rt; "top: {}", Hex(&description.root))?;
    Ok(())
}

// A name as it is printed: printable bytes but the backslash as they are, every other as `\x` and two hex digits.
#[derive(Clone, Copy)]
struct Name<'a>(&'a [u8]);

impl fmt::Display for Name<'_> {
    fn fmt<W: fmt::Write>(&self, f: &mut fmt::Formatter<W>) -> fmt::Result {
        for byte in self.0 {
            match *byte {
                byte @ 0x20..=0x7e if byte != b'\\' => write!(f, "{}", byte as char)?,
                byte => write!(f, "\\x{byte:02x}")?,
            }
        }
        Ok(())
    }
}
