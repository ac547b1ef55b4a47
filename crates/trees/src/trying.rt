// What is said of a piece and its path, as they are and damaged.
use crate::damaging::{longer, shorter, turned};
use crate::known::Known;
use anyhow::Context;
use merkle::{Path, check};
use std::alloc::Global;

// Whether the two ways to a path agree, and what is said of the piece at a place: with its path; with a bit of it
// turned; with a bit of the path turned; with the path of the next place, or of the first after the last; with the
// path a digest short, a digest too long, and a byte too long; and as if it were the next piece.
pub(crate) fn tries(
    heap: Global,
    file: &[u8],
    known: &Known,
    place: u8,
) -> anyhow::Result<[bool; 9]> {
    let numbers = known.numbers;
    let at = usize::from(place);
    let place = u32::from(place);
    let piece = file.chunks(16384).nth(at).context("no such piece")?;
    let path = bytes_of(heap, known.tree.path(place))?;
    let found = bytes_of(heap, known.digests.path(place))?;
    let other = bytes_of(heap, known.tree.path((place + 1) % numbers.pieces()))?;
    let turned_piece = turned(heap, piece, 37 * at)?;
    let turned_path = turned(heap, &path, 29 * at)?;
    let long = longer(heap, &path, &numbers.root())?;
    let ragged = longer(heap, &path, &[0])?;
    Ok([
        path == found,
        check(numbers, place, piece, &path),
        check(numbers, place, &turned_piece, &path),
        check(numbers, place, piece, &turned_path),
        check(numbers, place, piece, &other),
        check(numbers, place, piece, shorter(&path)),
        check(numbers, place, piece, &long),
        check(numbers, place, piece, &ragged),
        check(numbers, place + 1, piece, &path),
    ])
}

// The digests of a path one after the other.
fn bytes_of(heap: Global, path: Option<Path>) -> anyhow::Result<Vec<u8>> {
    let path = path.context("no such path")?;
    Ok(path.bytes().to_vec(heap)?)
}
