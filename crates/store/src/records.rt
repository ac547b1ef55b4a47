// The record of a piece, and its block of bytes.
ghost use Rattle.std.specs.Prelude.{◌≡◌, ◌<◌, ◌≤◌, length, is_ok, IfErr, Ok, Err, MatchResult};
ghost use Rattle.store.specs.Laws.{IsRecord};
ghost use Rattle.store.specs.Records.{all_zero, said, fits, read_record, record_of, refusal, record_bytes, written};
ghost use Rattle.store.specs.declared.flaw.Flaw.TheVariants.{Size};
ghost use Rattle.wire.specs.Bytes.{number_of};
ghost use Rattle.wire.specs.Formats.{IsField};
ghost use Rattle.wire.specs.Laws.{ReadsWritten, WritesRead};

use crate::flaw::{Flaw, Unfit};
use wire::{Fields, write_field};

// How many bytes a block has.
const SIZE: usize = 1024;

// How many digests a path has at most.
const MOST: usize = 16;

// A piece's number, its digest, and the digests of its path, one after the other.
// The path is bytes: whole digests would ask more of callers, who may give any bytes and are refused by `Unfit::Path`.
#[derive(Clone, Copy)]
pub struct Record<'a> {
    pub piece: u32,
    pub digest: [u8; 32],
    pub path: &'a [u8],
}

// Is each of these bytes 0?
fn all_zero(bytes: &[u8]) -> bool
    ensures { result ≡ all_zero bytes.now }
{
    bytes.iter().all(|byte| *byte == 0)
}

// The record of which these are the fields, or what is wrong with them.
fn record_of<'a>(
    piece: &[u8; 4],
    digest: &[u8; 32],
    count: u8,
    rest: &'a [u8],
) -> Result<Record<'a>, Flaw>
    requires { 512 ≤ length rest.now }
    ensures { MatchResult result (λ x. record_of (number_of piece.now) digest.now count rest.now ≡ Ok (said x)) (λ e. record_of (number_of piece.now) digest.now count rest.now ≡ Err e) }
{
    let count = usize::from(count);
    if count > MOST {
        return Err(Flaw::Count);
    }
    let (path, zeros) = rest.split_at(32 * count);
    if !all_zero(zeros) {
        return Err(Flaw::Rest);
    }
    Ok(Record {
        piece: u32::from_be_bytes(*piece),
        digest: *digest,
        path,
    })
}

// The next field of a block; a block in which it isn't whole has another size.
fn next<'a, const N: usize>(fields: &mut Fields<'a>) -> Result<&'a [u8; N], Flaw>
    ensures { MatchResult result (λ x. IsField N fields.old.0.now x.now fields.new.0.now) (λ e. (length fields.old.0.now < N) × (e ≡ Size)) }
{
    fields.next().map_err(|_| Flaw::Size)
}

// The record that this block is, its path a part of it, or what is wrong with the block.
pub fn read_record(block: &[u8]) -> Result<Record<'_>, Flaw>
    ensures read { MatchResult result (λ x. read_record block.now ≡ Ok (said x)) (λ e. read_record block.now ≡ Err e) }
    ensures round_trip { ReadsWritten IsRecord record_bytes read_record }
    ensures one_form { WritesRead IsRecord record_bytes read_record }
{
    if block.len() != SIZE {
        return Err(Flaw::Size);
    }
    let mut fields = Fields(block);
    let piece = next(&mut fields)?;
    let digest = next(&mut fields)?;
    let [count] = next::<1>(&mut fields)?;
    record_of(piece, digest, *count, fields.0)
}

// Writes the record over all of the block; writes nothing where the block isn't 1,024 bytes or the path
// isn't a whole number of digests, at most 16.
pub fn write_record(r: &Record, block: &mut [u8]) -> Result<(), Unfit>
    ensures answer { is_ok result ≡ fits (said r.now) block.old }
    ensures refused { IfErr result (λ e. e ≡ refusal block.old) }
    ensures bytes { block.new ≡ written (said r.now) block.old }
{
    if block.len() != SIZE {
        return Err(Unfit::Block);
    }
    let (digests, []) = r.path.as_chunks::<32>() else {
        return Err(Unfit::Path);
    };
    if digests.len() > MOST {
        return Err(Unfit::Path);
    }
    let count = digests.len() as u8;
    let place = write_field(block, 0, &r.piece.to_be_bytes());
    let place = write_field(block, place, &r.digest);
    let place = write_field(block, place, &[count]);
    let place = write_field(block, place, r.path);
    block[place..].fill(0);
    Ok(())
}
