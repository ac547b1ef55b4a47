// Byte strings as text, for people.
ghost use Rattle.std.specs.Prelude.{◌≡◌, ◌/◌, ◌%◌, ◌<◌, [], ◌∷◌, Some, length, string_bytes, MatchResult};
ghost use Rattle.std.specs.Fmt.{WritesOnOk};
ghost use Rattle.wire.specs.Hex.{hex_digit, hex_of};

use std::alloc::{AllocError, Global};
use std::fmt;

// A byte string that prints as its lowercase hex digits, two a byte.
#[derive(Clone, Copy)]
pub struct Hex<'a>(pub &'a [u8]);

impl fmt::Display for Hex<'_> {
    ghost output = { λ h. Some (hex_of h.0.now) };

    fn fmt<W: fmt::Write>(&self, f: &mut fmt::Formatter<W>) -> fmt::Result {
        for byte in self.0 {
            write_byte(f, *byte)?;
        }
        Ok(())
    }
}

// Writes the two digits of one byte, which is what a turn of the loop adds.
fn write_byte<W: fmt::Write>(f: &mut fmt::Formatter<W>, byte: u8) -> fmt::Result
    ensures { WritesOnOk W.write_str_gives f.old result (hex_digit (byte / 16) ∷ hex_digit (byte % 16) ∷ []) f.new }
{
    write!(f, "{byte:02x}")
}

// Those digits as a string; only for want of memory none, and never where the bytes are empty.
pub fn hex_digits(heap: Global, bytes: &[u8]) -> Result<String, AllocError>
    ensures { MatchResult result (λ s. string_bytes s ≡ hex_of bytes.now) (λ e. 0 < length bytes.now) }
{
    if bytes.is_empty() {
        return Ok(String::new(heap));
    }
    Hex(bytes).to_string(heap)
}
