// Plays each script that the command line names, and prints for each round who has the turn at each honest peer.
#![tactic(auto)]

mod failure;
mod turn;

use arena::{Node, begin_round, seat_all};
use failure::{Failure, Wrong};
use program::name_of;
use script::{Script, read};
use std::process::ExitCode;
use std::{env, fs, io};
use turn::Turn;

// A script that was read, with its path.
#[derive(Drop)]
struct Named {
    path: String,
    script: Script,
}

// Ends with status 1 where something went wrong, and says what it was.
fn main(rt: HostRuntime) -> ExitCode {
    match play_all(&rt) {
        Ok(()) => ExitCode::SUCCESS,
        Err(failure) => {
            // Where that can't be said either, the status alone tells it.
            let _ = failure.say(&rt);
            ExitCode::FAILURE
        }
    }
}

// Plays all scripts, one after the other.
fn play_all(rt: &HostRuntime) -> Result<(), Failure> {
    for named in read_all(rt)? {
        let name = name_of(named.path.as_str());
        println!(rt; "winter {name}")?;
        play(rt, &named.script)?;
    }
    Ok(())
}

// Reads all scripts, so that none is played where one is bad.
fn read_all(rt: &HostRuntime) -> Result<Vec<Named>, Failure> {
    let mut scripts = Vec::new(rt.alloc());
    for path in env::args(rt)?.skip(1) {
        // A `match`, as the path goes to the script or to the failure.
        match read_script(rt, path.as_str()) {
            Ok(script) => scripts.push(Named { path, script })?,
            Err(wrong) => return Err(Failure::Script { path, wrong }),
        }
    }
    if scripts.is_empty() {
        return Err(Failure::NoScripts);
    }
    Ok(scripts)
}

// Reads the script at a path.
fn read_script(rt: &HostRuntime, path: &str) -> Result<Script, Wrong> {
    let text = fs::read(rt, path)?;
    Ok(read(rt.alloc(), text.as_slice())?)
}

// Plays the rounds of a script.
fn play(rt: &HostRuntime, script: &Script) -> Result<(), Failure> {
    let mut nodes = seat_all(rt.alloc(), script.peers.as_slice())?;
    let mut rest = script.events.as_slice();
    for round in 0..script.rounds {
        let due = begin_round(nodes.as_mut_slice(), rest, round);
        rest = rest.split_at(due).1;
        print_round(rt, round, nodes.as_slice())?;
    }
    Ok(())
}

// One round: at each honest peer who has the turn.
fn print_round(rt: &HostRuntime, round: u64, nodes: &[Node]) -> io::Result<()> {
    print!(rt; "round {round} | turns")?;
    for node in nodes {
        let turn = Turn(node);
        print!(rt; " {turn}")?;
    }
    println!(rt; "")
}
