// Makes the description and the records of a file, shows a description, and checks a file against one.
#![tactic(auto)]

mod comparing;
mod failure;
mod job;
mod making;
mod reading;
mod showing;
mod spans;

use comparing::compare;
use failure::Failure;
use job::Job;
use making::make;
use program::status;
use showing::show;
use std::env;
use std::process::ExitCode;

// Ends with status 1 where something went wrong, also where that can't be said.
fn main(rt: HostRuntime) -> ExitCode {
    begin(&rt).unwrap_or(ExitCode::FAILURE)
}

// Does what the words of the command line ask for, says what goes wrong with it, and gives the status.
fn begin(rt: &HostRuntime) -> Result<ExitCode, Failure<'static>> {
    let words: Vec<String> = env::args(rt)?.skip(1).collect(rt.alloc())?;
    let (verbose, words) = without_flag(words.as_slice());
    let done = run(Job { rt, verbose }, words);
    if let Err(failure) = &done {
        failure.say(rt)?;
    }
    Ok(status(done))
}

// The arguments after `-v`, if that is the first.
fn without_flag(words: &[String]) -> (bool, &[String]) {
    match words {
        [first, rest @ ..] if first.as_str() == "-v" => (true, rest),
        _ => (false, words),
    }
}

// Does what the command line asks for.
fn run<'a>(job: Job<'a>, words: &'a [String]) -> Result<(), Failure<'a>> {
    match words {
        [command, rest @ ..] if command.as_str() == "show" => match rest {
            [description] => show(job, description.as_str()),
            _ => Err(Failure::Usage),
        },
        [command, rest @ ..] if command.as_str() == "check" => match rest {
            [description, file] => compare(job, description.as_str(), file.as_str(), None),
            [description, file, records] => {
                let records = Some(records.as_str());
                compare(job, description.as_str(), file.as_str(), records)
            }
            _ => Err(Failure::Usage),
        },
        [file, description, records] => {
            make(job, file.as_str(), description.as_str(), records.as_str())
        }
        _ => Err(Failure::Usage),
    }
}
