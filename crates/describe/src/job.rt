// What a run is done with.
use std::io;

// Above so many bytes progress is shown where that is wanted.
const MUCH: u64 = 67_108_864;

#[derive(Clone, Copy)]
pub struct Job<'a> {
    pub rt: &'a HostRuntime,
    // Whether progress is shown.
    pub verbose: bool,
}

impl Job<'_> {
    // Says how far it is with a long file, now and then.
    pub fn report(self, done: u64, length: u64) -> io::Result<()> {
        if !self.verbose || length <= MUCH || done % MUCH != 0 {
            return Ok(());
        }
        let (done, all) = (done / 1_048_576, length / 1_048_576);
        eprintln!(self.rt; "describe: {done} of {all} MiB")
    }
}
