// Prints what RFC 6234 says of messages beside their digests as they are computed here; ends with status 1 where one differs.
#![tactic(auto)]

mod standard;
mod ways;

use anyhow::anyhow;
use program::status;
use sha256::{TooLong, digest_of};
use standard::{VECTORS, Vector};
use std::process::ExitCode;
use ways::{LANES, WAYS, first_and_others, in_lanes, in_parts};
use wire::hex_digits;

// Ends with status 1 where something went wrong; what is said of it is said below.
fn main(rt: HostRuntime) -> ExitCode {
    status(compare_all(&rt))
}

// Compares all vectors.
fn compare_all(rt: &HostRuntime) -> anyhow::Result<()> {
    let mut comparison = Comparison { rt, differs: false };
    for vector in &VECTORS {
        comparison.compare(vector)?;
    }
    if comparison.differs {
        println!(rt; "a digest differs")?;
        return Err(anyhow!("a digest differs"));
    }
    let count = VECTORS.len();
    println!(rt; "{count} vectors, all as the standard says")?;
    Ok(())
}

// A comparison of digests, and whether one of them differs from what the standard says.
#[derive(Drop)]
struct Comparison<'a> {
    rt: &'a HostRuntime,
    differs: bool,
}

impl Comparison<'_> {
    // Computes the digest of a message in each way and prints it.
    fn compare(&mut self, vector: &Vector) -> anyhow::Result<()> {
        let message = vector.part.repeat(self.rt.alloc(), vector.times as usize)?;
        println!(self.rt; "{}", vector.name)?;
        println!(self.rt; "  {:<31} {}", "standard", vector.digest)?;
        self.show(vector, "at once", digest_of(&message))?;
        self.show(vector, "a byte and the others", first_and_others(&message))?;
        for (name, digest) in LANES.into_iter().zip(in_lanes(&message)) {
            self.show(vector, name, digest)?;
        }
        for way in &WAYS {
            self.show(vector, way.name, in_parts(&message, way.lengths))?;
        }
        Ok(())
    }

    // Prints a digest and whether it is what the standard says.
    fn show(
        &mut self,
        vector: &Vector,
        how: &str,
        digest: Result<[u8; 32], TooLong>,
    ) -> anyhow::Result<()> {
        let Ok(digest) = digest else {
            self.differs = true;
            println!(self.rt; "  {how:<31} none: too long")?;
            return Ok(());
        };
        let digits = hex_digits(self.rt.alloc(), &digest)?;
        let same = digits.as_str() == vector.digest;
        self.differs = self.differs || !same;
        let verdict = if same { "same" } else { "differs" };
        println!(self.rt; "  {how:<31} {digits} {verdict}")?;
        Ok(())
    }
}
