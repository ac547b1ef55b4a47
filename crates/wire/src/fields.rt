// The fields of which bytes are made, one after the other.
// No trait joins the formats: one is written as an array, one to the front of a buffer, one over a whole block.
ghost use Rattle.std.specs.Prelude.{◌≡◌, ◌+◌, ◌<◌, ◌≤◌, length, MatchResult, OnErr};
ghost use Rattle.wire.specs.Formats.{IsField, with_field};
ghost use Rattle.wire.specs.declared.damage.Damage.TheVariants.{Short};

use crate::damage::Damage;

// The bytes of a format that aren't read yet.
#[derive(Drop)]
pub struct Fields<'a>(pub &'a [u8]);

impl<'a> Fields<'a> {
    // The next field, of N bytes; where fewer are left, nothing is taken.
    pub fn next<const N: usize>(&mut self) -> Result<&'a [u8; N], Damage>
        ensures field { MatchResult result (λ x. IsField N self.old.0.now x.now self.new.0.now) (λ e. (length self.old.0.now < N) × (e ≡ Short)) }
        ensures unread { OnErr result (self.new ≡ self.old) }
    {
        let (field, rest) = self.0.split_first_chunk().ok_or(Damage::Short)?;
        self.0 = rest;
        Ok(field)
    }
}

// Writes a field at this place, and gives the place behind it.
// A `put` that lends what is behind was tried in place of places: the proof of what the loan leaves didn't close.
pub fn write_field(out: &mut [u8], at: usize, field: &[u8]) -> usize
    requires { at + length field.now ≤ length out.old }
    ensures place { result ≡ at + length field.now }
    ensures bytes { out.new ≡ with_field at field.now out.old }
{
    let end = at + field.len();
    out[at..end].copy_from_slice(field);
    end
}
