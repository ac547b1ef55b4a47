// Reading in whole parts.
ghost use Rattle.std.specs.Prelude.{◌≡◌, ℕ, ◌≤◌, ◌<◌, List, length, take, IfOk, IfErr, OnOk, OnErr};
ghost use Rattle.std.specs.Io.KnownBytes.{Consumes, IsAtEnd};
ghost use Rattle.program.specs.Parts.{TakesAll, Stops};
ghost use Rattle.program.specs.declared.reading.PartError.TheVariants.{Unread};

use std::io;
use std::io::Read;

// How many bytes are best read at once: four pieces.
pub const AT_ONCE: usize = 65_536;

// Reads until the buffer is full or the reader ends, and says how many bytes came.
fn read_full<R: Read>(reader: &mut R, buffer: &mut [u8]) -> io::Result<usize>
    ensures fits { IfOk result (λ n. n ≤ length buffer.new) }
    ensures same { length buffer.new ≡ length buffer.old }
    ensures bytes { IfOk result (λ n. Consumes (R.remaining reader.old) (R.remaining reader.new) (take n buffer.new)) }
    ensures end { IfOk result (λ n. n < length buffer.new → IsAtEnd (R.remaining reader.new)) }
    ensures lost { OnErr result ((some : List ℕ) × Consumes (R.remaining reader.old) (R.remaining reader.new) some) }
{
    let mut filled = 0;
    // Tried with `rest = &mut rest[count..]`: `bytes` stayed open, as the loop's facts can't name what the front holds.
    while filled < buffer.len() {
        let count = reader.read(&mut buffer[filled..])?;
        if count == 0 {
            break;
        }
        filled += count;
    }
    Ok(filled)
}

// Reads until the buffer is full or the reader ends, and gives what came: the reader's next bytes, as many as
// the buffer has, and fewer only at the end. What came before an error is lost.
pub fn read_part<'a, R: Read>(reader: &mut R, buffer: &'a mut [u8]) -> io::Result<&'a [u8]>
    ensures fits { IfOk result (λ part. length part.now ≤ length buffer.old) }
    ensures bytes { IfOk result (λ part. Consumes (R.remaining reader.old) (R.remaining reader.new) part.now) }
    ensures end { IfOk result (λ part. length part.now < length buffer.old → IsAtEnd (R.remaining reader.new)) }
    ensures lost { OnErr result ((some : List ℕ) × Consumes (R.remaining reader.old) (R.remaining reader.new) some) }
{
    let count = read_full(reader, buffer)?;
    Ok(&buffer[0..count])
}

// Why not all parts were taken.
#[derive(Debug, Drop)]
pub enum PartError<E> {
    // The reader failed.
    Unread(io::Error),
    // The function refused a part.
    Refused(E),
}

impl<E> From<io::Error> for PartError<E> {
    ghost from_gives = { λ e r. r ≡ Unread e };

    fn from(error: io::Error) -> PartError<E> {
        PartError::Unread(error)
    }
}

// Gives a function all that a reader has, part by part as `read_part` reads them, until it refuses one.
pub fn each_part<R: Read, E, F: FnMut(&[u8]) -> Result<(), E>>(
    reader: &mut R,
    buffer: &mut [u8],
    mut take: F,
) -> Result<(), PartError<E>>
    requires room { 0 < length buffer.old }
    requires callable { F.IsAlwaysCallable take }
    ensures all { OnOk result (TakesAll F.FnMut take (R.remaining reader.old) (R.remaining reader.new)) }
    ensures stops { IfErr result (Stops F.FnMut take (R.remaining reader.old) (R.remaining reader.new)) }
{
    // Tried as a plain `loop`: it asks for a number that falls each turn, and a reader that tells no end gives none.
    for _ in 0..u64::MAX {
        let part = read_part(reader, buffer)?;
        if part.is_empty() {
            return Ok(());
        }
        take(part).map_err(PartError::Refused)?;
    }
    // No reader has so many parts.
    Err(PartError::Unread(io::Error::from(io::ErrorKind::FileTooLarge)))
}
