// Makes the description and the records of a file.
use crate::failure::{Failure, OrFail, Wrong};
use crate::job::Job;
use anyhow::Context;
use merkle::Tree;
use program::name_of;
use std::alloc::{AllocError, Global};
use std::fs;
use std::fs::File;
use std::io::{BufWriter, Write};
use store::{Record, write_record};
use wire::{Description, write_description};

// A file that is written beside its place and moved there when it is whole.
#[derive(Drop)]
struct Target<'a> {
    place: &'a str,
    beside: String,
}

impl<'a> Target<'a> {
    // The target at a place.
    fn new(heap: Global, place: &'a str) -> Result<Target<'a>, AllocError> {
        let beside = format!(in heap; "{place}.part")?;
        Ok(Target { place, beside })
    }

    // Whether a file has its name or that of what is written beside it.
    fn is_at(&self, file: &str) -> bool {
        file == self.place || file == self.beside.as_str()
    }

    // Whether two targets would be written over each other.
    fn meets(&self, other: &Target) -> bool {
        other.is_at(self.place) || other.is_at(self.beside.as_str())
    }

    // Begins to write it.
    fn create(&self, job: Job) -> Result<File, Failure<'a>> {
        fs::create(job.rt, self.beside.as_str()).map_err(|_| Failure::Part {
            place: self.place,
            wrong: Wrong::NotMade,
        })
    }

    // Moves it to its place.
    fn finish(&self, job: Job) -> Result<(), Failure<'a>> {
        fs::rename(job.rt, self.beside.as_str(), self.place).or_fail(self.place, Wrong::NotWritten)
    }

    // Leaves nothing beside its place.
    fn discard(&self, job: Job) {
        let _ = fs::remove_file(job.rt, self.beside.as_str());
    }
}

// What is made of a file, and where to.
#[derive(Drop)]
struct Output<'a> {
    tree: Tree,
    name: &'a [u8],
    description: Target<'a>,
    records: Target<'a>,
}

// Makes the description and the records of a file, each at its place.
pub fn make<'a>(
    job: Job,
    file: &'a str,
    description: &'a str,
    records: &'a str,
) -> Result<(), Failure<'a>> {
    let heap = job.rt.alloc();
    let memory = Wrong::NoMemory("for names");
    let description = Target::new(heap, description).or_fail(file, memory)?;
    let records = Target::new(heap, records).or_fail(file, memory)?;
    if description.meets(&records) || description.is_at(file) || records.is_at(file) {
        return Err(Failure::of(file, Wrong::NotThree));
    }
    let name = name_of(file).as_bytes();
    if name.is_empty() || name.len() > 255 {
        return Err(Failure::of(file, Wrong::BadName));
    }
    let tree = Tree::new(heap, job.digest(file)?).map_err(|fault| Failure::of(
        file,
        Wrong::of(fault, "for its tree", Wrong::Changed),
    ))?;
    let output = Output {
        tree,
        name,
        description,
        records,
    };
    output.write(job)
}

impl<'a> Output<'a> {
    // Writes both files and moves them to their places, or leaves nothing beside them.
    fn write(&self, job: Job) -> Result<(), Failure<'a>> {
        let first = self.description.create(job)?;
        let second = self
            .records
            .create(job)
            .inspect_err(|_| self.description.discard(job))?;
        self.finish(job, first, second).inspect_err(|_| {
            self.description.discard(job);
            self.records.discard(job);
        })
    }

    // The same with both files open.
    fn finish(&self, job: Job, first: File, second: File) -> Result<(), Failure<'a>> {
        self.write_description(first)
            .or_fail(self.description.place, Wrong::NotWritten)?;
        self.write_records(job.rt.alloc(), second)
            .or_fail(self.records.place, Wrong::NotWritten)?;
        self.records.finish(job)?;
        self.description.finish(job)
    }

    // Writes the description of the file.
    fn write_description(&self, mut out: File) -> anyhow::Result<()> {
        let numbers = self.tree.numbers();
        let described = Description {
            length: numbers.length(),
            root: numbers.root(),
            name: self.name,
        };
        let mut room = [0u8; 297];
        let count = write_description(&described, &mut room).context("no description")?;
        let bytes = room.get(0..count).context("no description")?;
        out.write_all(bytes)?;
        out.sync_all()?;
        Ok(())
    }

    // The record of each piece, block after block.
    fn write_records(&self, heap: Global, out: File) -> anyhow::Result<()> {
        let mut out = BufWriter::new(heap, out)?;
        for piece in 0..self.tree.numbers().pieces() {
            let digest = self.tree.leaf(piece).context("no record")?;
            let path = self.tree.path(piece).context("no record")?;
            let record = Record {
                piece,
                digest,
                path: path.bytes(),
            };
            let mut block = [0u8; 1024];
            write_record(&record, &mut block)?;
            out.write_all(&block)?;
        }
        out.flush()?;
        out.get_ref().sync_all()?;
        Ok(())
    }
}
