// What is wrong with bytes that are no description or no settings.
ghost use Rattle.std.specs.Prelude.{◌≡◌, Some};
ghost use Rattle.swarm.specs.Faults.{number};
ghost use Rattle.swarm.specs.declared.fault.Fault.TheVariants.{BadSettings};
ghost use Rattle.wire.specs.Words.{damage_words};

use std::error::Error;
use std::fmt;
use swarm::Fault;

#[derive(Clone, Copy, PartialEq, Eq, Debug)]
pub enum Damage {
    // They end before the last field of a fixed size does.
    Short,
    // The first byte isn't 1.
    Kind,
    // A length that no file has.
    Length,
    // More or fewer bytes follow than the name should have.
    Name,
    // A round that isn't 64 ticks.
    Round,
    // They go on after the last field.
    Long,
}

impl Damage {
    // The fault of the protocol, whatever is wrong.
    pub fn fault(self) -> Fault
        ensures { (result ≡ Fault.BadSettings) × (number result ≡ 11) }
    {
        self.into()
    }
}

impl From<Damage> for Fault {
    ghost from_gives = { λ _ f. f ≡ BadSettings };

    fn from(_damage: Damage) -> Fault {
        Fault::BadSettings
    }
}

impl fmt::Display for Damage {
    ghost output = { λ d. Some (damage_words d) };

    fn fmt<W: fmt::Write>(&self, f: &mut fmt::Formatter<W>) -> fmt::Result {
        f.write_str(match self {
            Damage::Short => "it is cut off",
            Damage::Kind => "it doesn't begin with 1",
            Damage::Length => "its length is not 1 to 1073741824",
            Damage::Name => "its name has another length than it says",
            Damage::Round => "its round is not 64 ticks",
            Damage::Long => "it goes on after its end",
        })
    }
}

impl Error for Damage {}
