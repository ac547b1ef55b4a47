// How long a file can be, and how many pieces it then has.
ghost use Rattle.std.specs.Prelude.{◌≡◌, ◌≤◌, is_ok, MatchResult};
ghost use Rattle.bytetree.specs.Pieces.{piece_count};
ghost use Rattle.merkle.specs.Lengths.{IsLength, is_length};

use swarm::Fault;

// How many bytes a piece has, the last one perhaps fewer.
pub(crate) const PIECE: usize = 16_384;

// The most bytes of a file.
const LONGEST: u64 = 1 << 30;

// The length of a file; one that no file has is refused.
pub(crate) fn file_length(length: u64) -> Result<u64, Fault>
    ensures taken { is_ok result ≡ is_length length }
    ensures made { MatchResult result (λ n. (n ≡ length) × IsLength n) (λ e. e ≡ Fault.BadSettings) }
{
    if length < 1 || length > LONGEST {
        return Err(Fault::BadSettings);
    }
    Ok(length)
}

// How many pieces a file of this length has.
pub(crate) fn pieces_of(length: u64) -> u32
    requires { IsLength length }
    ensures counted { result ≡ piece_count length }
    ensures within { (1 ≤ result) × (result ≤ 65536) }
{
    length.div_ceil(PIECE as u64) as u32
}
