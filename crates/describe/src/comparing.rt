// Checks a file against a description.
use crate::failure::{Failure, OrFail, Wrong};
use crate::job::Job;
use crate::spans::Spans;
use merkle::{Numbers, check};
use program::read_part;
use sha256::digest_after;
use store::read_record;

// A file, what it is to be, and which of its pieces were found wrong.
#[derive(Drop)]
struct Comparison<'a> {
    job: Job<'a>,
    file: &'a str,
    numbers: Numbers,
    wrong: Spans,
}

// Prints how many pieces of the file are right, and which are not.
pub fn compare<'a>(
    job: Job<'a>,
    description: &'a str,
    file: &'a str,
    records: Option<&'a str>,
) -> Result<(), Failure<'a>> {
    let mut room = [0u8; 298];
    let numbers = job
        .read_description(description, &mut room)?
        .numbers()
        .or_fail(description, Wrong::DescribedLength)?;
    let mut comparison = Comparison {
        job,
        file,
        numbers,
        wrong: Spans::new(job.rt.alloc()),
    };
    let right = match records {
        Some(records) => comparison.each(records)?,
        None => comparison.all_or_none()?,
    };
    println!(job.rt; "right: {right} of {}", numbers.pieces())?;
    println!(job.rt; "wrong: {}", comparison.wrong)?;
    Ok(())
}

impl<'a> Comparison<'a> {
    // Without records there is no path to judge a single piece by: all are right, or none can be shown to be.
    fn all_or_none(&mut self) -> Result<u32, Failure<'a>> {
        let pieces = self.numbers.pieces();
        let found = self.job.open(self.file)?.metadata();
        let found = found.or_fail(self.file, Wrong::NoLength)?;
        if found.len() == self.numbers.length() {
            let known = self.job.digest(self.file)?.numbers();
            let known = known.or_fail(self.file, Wrong::Changed)?;
            if known.root() == self.numbers.root() {
                return Ok(pieces);
            }
        }
        self.note(0, pieces - 1)?;
        Ok(0)
    }

    // With records each piece is judged by the path in its own.
    fn each(&mut self, records: &'a str) -> Result<u32, Failure<'a>> {
        let numbers = self.numbers;
        let mut pieces = self.job.open(self.file)?;
        let mut blocks = self.job.open(records)?;
        let mut right = 0u32;
        // A piece has a number and stands in two files, each of which can fail, so the loop goes by numbers.
        for m in 0..numbers.pieces() {
            let length = numbers.piece_length(m).unwrap_or(0) as usize;
            let mut piece = [0u8; 16384];
            let piece = read_part(&mut pieces, &mut piece[0..length]).or_fail(
                self.file,
                Wrong::NotRead,
            )?;
            let mut block = [0u8; 1024];
            let block = read_part(&mut blocks, &mut block).or_fail(records, Wrong::NotRead)?;
            if is_right(numbers, m, piece, block) {
                right = right.saturating_add(1);
            } else {
                self.note(m, m)?;
            }
            self.job
                .report((u64::from(m) + 1) * 16_384, numbers.length())?;
        }
        Ok(right)
    }

    // Notes pieces that aren't right.
    fn note(&mut self, first: u32, last: u32) -> Result<(), Failure<'a>> {
        let memory = Wrong::NoMemory("for the list of what is wrong");
        self.wrong.note(first, last).or_fail(self.file, memory)
    }
}

// Whether a block is the record of this piece with these bytes, and its path leads from them to the root.
fn is_right(numbers: Numbers, m: u32, piece: &[u8], block: &[u8]) -> bool {
    read_record(block).is_ok_and(|record| {
        record.piece == m
            && digest_after(0, piece) == Ok(record.digest)
            && check(numbers, m, piece, record.path)
    })
}
