// The settings of a peer, and their bytes.
ghost use Rattle.std.specs.Prelude.{◌≡◌};
ghost use Rattle.wire.specs.Formats.{read_settings, settings_bytes};
ghost use Rattle.wire.specs.Laws.{IsSettings, ReadsWritten, WritesRead};

use crate::damage::Damage;
use crate::fields::{Fields, write_field};

// How many ticks a round has, in all settings.
const ROUND: u16 = 64;

#[derive(Clone, Copy, PartialEq, Eq, Debug)]
pub struct Settings {
    pub first_tick: u64,
    pub own_number: u64,
}

// The settings that these bytes are, or what is wrong with them.
pub fn read_settings(bytes: &[u8]) -> Result<Settings, Damage>
    ensures read { result ≡ read_settings bytes.now }
    ensures round_trip { ReadsWritten IsSettings settings_bytes read_settings }
    ensures one_form { WritesRead IsSettings settings_bytes read_settings }
{
    let mut fields = Fields(bytes);
    let round = fields.next::<2>()?;
    let first_tick = fields.next::<8>()?;
    let own_number = fields.next::<8>()?;
    if u16::from_be_bytes(*round) != ROUND {
        return Err(Damage::Round);
    }
    if !fields.0.is_empty() {
        return Err(Damage::Long);
    }
    Ok(Settings {
        first_tick: u64::from_be_bytes(*first_tick),
        own_number: u64::from_be_bytes(*own_number),
    })
}

// The bytes that settings are written as.
pub fn write_settings(s: &Settings) -> [u8; 18]
    ensures { result ≡ settings_bytes s.now }
{
    let mut bytes = [0; 18];
    let place = write_field(&mut bytes, 0, &ROUND.to_be_bytes());
    let place = write_field(&mut bytes, place, &s.first_tick.to_be_bytes());
    write_field(&mut bytes, place, &s.own_number.to_be_bytes());
    bytes
}
