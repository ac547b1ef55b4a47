// Prints the SHA-256 of a file taken as one stream, or the root of the tree over its pieces; for measuring and comparing.
#![tactic(auto)]

use anyhow::{Context, anyhow};
use merkle::Digests;
use program::{AT_ONCE, each_part, read_part, status};
use sha256::Hasher;
use std::process::ExitCode;
use std::{env, fs};
use wire::Hex;

// Ends with status 1 where something went wrong; what is said of it is said below.
fn main(rt: HostRuntime) -> ExitCode {
    status(run(&rt))
}

// Does what the command line asks for.
fn run(rt: &HostRuntime) -> anyhow::Result<()> {
    let words: Vec<String> = env::args(rt)?.skip(1).collect(rt.alloc())?;
    let digest = match words.as_slice() {
        [what, path] if what.as_str() == "stream" => stream(rt, path.as_str())?,
        [what, path] if what.as_str() == "root" => root(rt, path.as_str())?,
        _ => {
            eprintln!(rt; "hashes: expected stream FILE or root FILE")?;
            return Err(anyhow!("bad arguments"));
        }
    };
    println!(rt; "{}", Hex(&digest))?;
    Ok(())
}

// The digest of a file, part by part, up to its first end. A loop of its own, since `each_part` reads once more after a short part,
// and at a terminal that would wait for a second end of input.
fn stream(rt: &HostRuntime, path: &str) -> anyhow::Result<[u8; 32]> {
    let mut file = fs::open(rt, path)?;
    let mut buffer = vec![in rt.alloc(); 0u8; AT_ONCE]?;
    let mut hasher = Hasher::new();
    for _ in 0..u64::MAX {
        let part = read_part(&mut file, &mut buffer)?;
        hasher = hasher.update(part)?;
        if part.len() < AT_ONCE {
            break;
        }
    }
    Ok(hasher.finish())
}

// The root of a file, some pieces at a time.
fn root(rt: &HostRuntime, path: &str) -> anyhow::Result<[u8; 32]> {
    let mut file = fs::open(rt, path)?;
    let length = file.metadata()?.len();
    let mut digests = Digests::new(rt.alloc(), length)?;
    let mut buffer = vec![in rt.alloc(); 0u8; AT_ONCE]?;
    let taken = each_part(&mut file, &mut buffer, |part| digests.take_in(part));
    taken.ok().context("it can't be taken in")?;
    Ok(digests.numbers()?.root())
}
