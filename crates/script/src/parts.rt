// The parts of a statement, each taken from the front of the words that are left of a line.
ghost use Rattle.std.specs.Prelude.{◌≡◌, Ok, Err, MatchResult};
ghost use Rattle.script.specs.Statements.{Takes, number, keyword, ended, pair, delay};
ghost use Rattle.script.specs.Words.{left};
ghost use Rattle.script.specs.declared.parts.Pair.{Pair};
ghost use Rattle.script.specs.declared.statement.Statement.{Statement};

use crate::number::number;
use crate::statement::Expected;
use crate::words::Words;

// A number that is wanted: its bounds, and what is said where it isn't one.
#[derive(Clone, Copy)]
pub(crate) struct Wanted {
    pub(crate) low: u64,
    pub(crate) high: u64,
    pub(crate) expected: Expected,
}

// Two peers, and a tick.
pub(crate) struct Pair {
    pub(crate) a: u64,
    pub(crate) b: u64,
    pub(crate) at: u64,
}

// A peer's number.
pub(crate) const PEER: Wanted = Wanted {
    low: 1,
    high: u64::MAX,
    expected: Expected::PeerNumber,
};

impl<'a> Words<'a> {
    // A number that is wanted.
    pub(crate) fn number(&mut self, wanted: Wanted) -> Result<u64, Expected>
        ensures { Takes (number wanted.low wanted.high wanted.expected (left self.old)) (left self.new) result }
    {
        self.next()
            .and_then(number)
            .filter(|n| (wanted.low..=wanted.high).contains(n))
            .ok_or(wanted.expected)
    }

    // The word that is wanted.
    fn keyword(&mut self, wanted: &[u8], expected: Expected) -> Result<(), Expected>
        ensures { Takes (λ next. keyword wanted.now expected (left self.old) (next tt)) (left self.new) result }
    {
        self.next().filter(|word| *word == wanted).ok_or(expected)?;
        Ok(())
    }

    // Two peers' numbers, the word `at` and a tick.
    pub(crate) fn pair(&mut self) -> Result<Pair, Expected>
        ensures { Takes (λ next. pair (left self.old) (λ a b t ws. next (record { a = a; b = b; at = t }) ws)) (left self.new) result }
    {
        let a = self.number(PEER)?;
        let b = self.number(PEER)?;
        self.keyword(b"at", Expected::At)?;
        let at = self.number(Wanted {
            low: 0,
            high: u64::MAX,
            expected: Expected::Tick,
        })?;
        Ok(Pair { a, b, at })
    }

    // A delay from 1 to 8 ticks, 1 where the line ends.
    pub(crate) fn delay(&mut self) -> Result<u64, Expected>
        ensures { Takes (delay (left self.old)) (left self.new) result }
    {
        match self.next() {
            None => Ok(1),
            Some(word) if word == b"delay".as_slice() => self.number(Wanted {
                low: 1,
                high: 8,
                expected: Expected::DelayTicks,
            }),
            Some(_) => Err(Expected::Delay),
        }
    }

    // Nothing more stands in the line.
    pub(crate) fn end(&mut self) -> Result<(), Expected>
        ensures { (s : Statement) → MatchResult result (λ _. ended s (left self.old) ≡ Ok s) (λ e. ended s (left self.old) ≡ Err e) }
    {
        match self.next() {
            None => Ok(()),
            Some(_) => Err(Expected::LineEnd),
        }
    }
}
