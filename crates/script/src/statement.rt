// The statements of a script, one a line.
ghost use Rattle.std.specs.Prelude.{◌≡◌, ◌∷◌, Err, MatchResult};
ghost use Rattle.script.specs.Laws.{NumeralExact, WrittenRead, ReadWritten};
ghost use Rattle.script.specs.Statements.{ended, statement};
ghost use Rattle.script.specs.Words.{left, words};

use crate::parts::{PEER, Pair, Wanted};
use crate::words::Words;

// How many rounds a script may ask for.
const ROUNDS: Wanted = Wanted {
    low: 0,
    high: 4294967295,
    expected: Expected::Count,
};

#[derive(Clone, Copy, PartialEq, Eq, Debug)]
pub enum Statement {
    // An honest peer.
    Peer(u64),
    // A peer that does only what the script says.
    False(u64),
    // A link comes about at a tick; messages on it take so many ticks.
    Link { a: u64, b: u64, at: u64, delay: u64 },
    // A link breaks at a tick.
    Break { a: u64, b: u64, at: u64 },
    // How many rounds are played.
    Rounds(u64),
}

// What a line should have had in the place of what it has.
#[derive(Clone, Copy, PartialEq, Eq, Debug)]
pub enum Expected {
    // A statement's first word.
    Statement,
    // A statement that is played already, not one that the language has for later.
    Played,
    // A peer's number, from 1.
    PeerNumber,
    // A peer that no line above named.
    NewPeer,
    // A peer that a line above named.
    KnownPeer,
    // Another peer than the first.
    OtherPeer,
    // The word `at`.
    At,
    // A tick.
    Tick,
    // The word `delay` or the end of the line.
    Delay,
    // A delay from 1 to 8.
    DelayTicks,
    // A number of rounds.
    Count,
    // The end of the line.
    LineEnd,
    // A link that stands at that tick.
    StandingLink,
    // No statement after `rounds`.
    Nothing,
    // `rounds` as the last statement.
    Rounds,
}

// The statement of that name, of the words that follow it.
fn named(name: &str, words: &mut Words) -> Result<Statement, Expected>
    ensures { MatchResult result (λ s. statement (name.now ∷ left words.old) ≡ ended s (left words.new)) (λ e. statement (name.now ∷ left words.old) ≡ Err e) }
{
    match name {
        "peer" => Ok(Statement::Peer(words.number(PEER)?)),
        "false" => Ok(Statement::False(words.number(PEER)?)),
        "link" => {
            let Pair { a, b, at } = words.pair()?;
            let delay = words.delay()?;
            Ok(Statement::Link { a, b, at, delay })
        }
        "break" => {
            let Pair { a, b, at } = words.pair()?;
            Ok(Statement::Break { a, b, at })
        }
        "rounds" => Ok(Statement::Rounds(words.number(ROUNDS)?)),
        "pieces" | "fall" | "disk" | "say" => Err(Expected::Played),
        _ => Err(Expected::Statement),
    }
}

// The statement that all words of a line are.
fn stated(mut words: Words) -> Result<Statement, Expected>
    ensures { result ≡ statement (left words.entry) }
{
    let name = words.next().ok_or(Expected::Statement)?;
    let name = str::from_utf8(name).or(Err(Expected::Statement))?;
    let statement = named(name, &mut words)?;
    words.end()?;
    Ok(statement)
}

// The statement that a line is, or what it should have been.
pub fn read_statement(line: &[u8]) -> Result<Statement, Expected>
    ensures read { result ≡ statement (words line.now) }
    ensures numerals { NumeralExact }
    ensures written { WrittenRead }
    ensures only { ReadWritten }
{
    stated(Words::of(line))
}
