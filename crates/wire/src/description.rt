// The description of a file, and its bytes.
ghost use Rattle.std.specs.Prelude.{◌≡◌, true, is_ok, IfOk, if◌then◌else◌, Some, None, Ok, Err, MatchResult};
ghost use Rattle.merkle.specs.Lengths.{is_length};
ghost use Rattle.swarm.specs.Faults.{number};
ghost use Rattle.wire.specs.Formats.{said, fits, description_bytes, description_of, description_size, written, read_description};
ghost use Rattle.wire.specs.Laws.{IsDescription, ReadsWritten, WritesRead};

use crate::damage::Damage;
use crate::fields::{Fields, write_field};
use merkle::Numbers;
use swarm::Fault;

// The first byte of a description.
const KIND: u8 = 1;

// How many bytes stand before the name.
const FIXED: usize = 42;

// A file's length, the root of its tree, and its name, which plays no part in the protocol.
#[derive(Clone, Copy)]
pub struct Description<'a> {
    pub length: u64,
    pub root: [u8; 32],
    pub name: &'a [u8],
}

impl Description<'_> {
    // What the file is known by; refused where no file has that length.
    pub fn numbers(&self) -> Result<Numbers, Fault>
        ensures taken { is_ok result ≡ is_length self.now.length }
        ensures made { MatchResult result (λ n. (n.length ≡ self.now.length) × (n.root ≡ self.now.root)) (λ e. (e ≡ Fault.BadSettings) × (number e ≡ 11)) }
    {
        Numbers::new(self.length, self.root)
    }
}

// The description of which these are the fields, or what is wrong with them.
fn description_of<'a>(
    length: &[u8; 8],
    root: &[u8; 32],
    size: &[u8; 1],
    name: &'a [u8],
) -> Result<Description<'a>, Damage>
    ensures made { MatchResult result (λ d. description_of length.now root.now size.now name.now ≡ Ok (said d)) (λ e. description_of length.now root.now size.now name.now ≡ Err e) }
    ensures possible { IfOk result (λ d. is_length d.length ≡ true) }
{
    let length = u64::from_be_bytes(*length);
    Numbers::new(length, *root).map_err(|_| Damage::Length)?;
    let [size] = *size;
    if name.len() != usize::from(size) {
        return Err(Damage::Name);
    }
    Ok(Description {
        length,
        root: *root,
        name,
    })
}

// The description that these bytes are, its name a part of them, or what is wrong with them.
pub fn read_description(bytes: &[u8]) -> Result<Description<'_>, Damage>
    ensures read { MatchResult result (λ d. read_description bytes.now ≡ Ok (said d)) (λ e. read_description bytes.now ≡ Err e) }
    ensures possible { IfOk result (λ d. is_length d.length ≡ true) }
    ensures round_trip { ReadsWritten IsDescription description_bytes read_description }
    ensures one_form { WritesRead IsDescription description_bytes read_description }
{
    let mut fields = Fields(bytes);
    let [kind] = fields.next::<1>()?;
    if *kind != KIND {
        return Err(Damage::Kind);
    }
    let length = fields.next()?;
    let root = fields.next()?;
    let size = fields.next()?;
    description_of(length, root, size, fields.0)
}

// Writes the description to the front of `out` and says how many bytes it has, or writes nothing where its
// length or its name can't be or `out` is too short.
pub fn write_description(d: &Description, out: &mut [u8]) -> Option<usize>
    ensures count { result ≡ (if fits (said d.now) out.old then Some (description_size (said d.now)) else None) }
    ensures bytes { out.new ≡ written (said d.now) out.old }
{
    d.numbers().ok()?;
    let size = u8::try_from(d.name.len()).ok()?;
    if out.len() < FIXED + d.name.len() {
        return None;
    }
    let place = write_field(out, 0, &[KIND]);
    let place = write_field(out, place, &d.length.to_be_bytes());
    let place = write_field(out, place, &d.root);
    let place = write_field(out, place, &[size]);
    Some(write_field(out, place, d.name))
}
