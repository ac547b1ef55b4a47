// Reading files in whole pieces, and descriptions.
ghost use Rattle.std.specs.Prelude.{◌<◌, length};

use crate::failure::{Failure, OrFail, Wrong};
use crate::job::Job;
use merkle::Digests;
use program::{AT_ONCE, PartError, each_part, read_part};
use std::fs;
use std::fs::File;
use wire::{Description, read_description};

impl Job<'_> {
    // Opens the file at a path.
    pub fn open<'a>(self, path: &'a str) -> Result<File, Failure<'a>> {
        fs::open(self.rt, path).or_fail(path, Wrong::NotOpened)
    }

    // The description in a file. At most as many bytes are read as the longest one has and one more, which can't be
    // right.
    pub fn read_description<'a, 'b>(
        self,
        path: &'a str,
        room: &'b mut [u8; 298],
    ) -> Result<Description<'b>, Failure<'a>> {
        let mut file = self.open(path)?;
        let bytes = read_part(&mut file, room).or_fail(path, Wrong::NotRead)?;
        read_description(bytes).map_err(|damage| Failure::of(path, Wrong::Damaged(damage)))
    }

    // Takes in a whole file.
    pub fn digest<'a>(self, path: &'a str) -> Result<Digests, Failure<'a>> {
        let mut file = self.open(path)?;
        let found = file.metadata().or_fail(path, Wrong::NoLength)?;
        if !found.is_file() {
            return Err(Failure::of(path, Wrong::NoFile));
        }
        let heap = self.rt.alloc();
        let mut digests = Digests::new(heap, found.len()).map_err(|fault| {
            Failure::of(path, Wrong::of(fault, "for its digests", Wrong::BadLength))
        })?;
        let mut buffer = vec![in heap; 0u8; AT_ONCE].or_fail(path, Wrong::NoMemory("to read it"))?;
        self.take_in(path, &mut file, &mut buffer, found.len(), &mut digests)?;
        Ok(digests)
    }

    // Takes in what there is, some pieces at a time.
    fn take_in<'a>(
        self,
        path: &'a str,
        file: &mut File,
        buffer: &mut [u8],
        whole: u64,
        digests: &mut Digests,
    ) -> Result<(), Failure<'a>>
        requires { 0 < length buffer.old }
    {
        let mut done = 0u64;
        let taken = each_part(file, buffer, |part| -> Result<(), Failure> {
            digests.take_in(part).or_fail(path, Wrong::Changed)?;
            done = done.saturating_add(part.len() as u64);
            self.report(done, whole)?;
            Ok(())
        });
        // A closure in `map_err` that hands on the failure, which holds a reference, gets no proof.
        match taken {
            Ok(()) => Ok(()),
            Err(PartError::Refused(failure)) => Err(failure),
            Err(PartError::Unread(_)) => Err(Failure::of(path, Wrong::NotRead)),
        }
    }
}
