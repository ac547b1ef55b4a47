// The number that a word is.
ghost use Rattle.std.specs.Prelude.{◌≡◌};
ghost use Rattle.script.specs.Words.{numeral, onward};

// The number of 64 bits that these digits write. Digit by digit: by way of `from_utf8` and `from_str_radix` a statement took 1.5
// to 1.8 times as long.
fn value(word: &[u8]) -> Option<u64>
    ensures { result ≡ onward 0 word.now }
{
    let mut n: u64 = 0;
    for b in word {
        if !b.is_ascii_digit() {
            return None;
        }
        n = n.checked_mul(10)?.checked_add(u64::from(*b - b'0'))?;
    }
    Some(n)
}

// The number of 64 bits that a word is; it has no sign, and no zero in front of other digits.
pub(crate) fn number(word: &[u8]) -> Option<u64>
    ensures { result ≡ numeral word.now }
{
    match word {
        [] => None,
        [b'0', _, ..] => None,
        _ => value(word),
    }
}
