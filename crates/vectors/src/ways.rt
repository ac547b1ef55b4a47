// Ways in which a message is taken in.
use sha256::{Hasher, TooLong, digest_after, digest_four};

// The lengths of parts, one after the other and then from the first again.
#[derive(Clone, Copy)]
pub(crate) struct Way {
    pub(crate) name: &'static str,
    pub(crate) lengths: &'static [usize],
}

// The places of a message among four that are hashed side by side.
pub(crate) const LANES: [&str; 4] = [
    "first of four",
    "second of four",
    "third of four",
    "fourth of four",
];

// Lengths and no closures: each way is the same loop over other lengths.
pub(crate) const WAYS: [Way; 4] = [
    Way {
        name: "in parts of 1",
        lengths: &[1],
    },
    Way {
        name: "in parts of 64",
        lengths: &[64],
    },
    Way {
        name: "in parts of 5, 2, 1, 8, 13",
        lengths: &[5, 2, 1, 8, 13],
    },
    Way {
        name: "in parts of 1, 63, 64, 65, 1000",
        lengths: &[1, 63, 64, 65, 1000],
    },
];

// The digest of a message that is taken in part by part, each part at least a byte long.
pub(crate) fn in_parts(message: &[u8], lengths: &[usize]) -> Result<[u8; 32], TooLong> {
    let mut hasher = Hasher::new();
    let mut rest = message;
    let mut lengths = lengths.iter().cycle();
    while !rest.is_empty() {
        let length = lengths.next().map_or(1, |length| (*length).max(1));
        let (part, others) = rest.split_at(length.min(rest.len()));
        hasher = hasher.update(part)?;
        rest = others;
    }
    Ok(hasher.finish())
}

// The digest of a message by its first byte and the others.
pub(crate) fn first_and_others(message: &[u8]) -> Result<[u8; 32], TooLong> {
    match message.split_first() {
        Some((first, others)) => digest_after(*first, others),
        None => Ok(Hasher::new().finish()),
    }
}

// The digests of a message at each place among four, side by side with others of its length.
pub(crate) fn in_lanes(message: &[u8]) -> [Result<[u8; 32], TooLong>; 4] {
    let Some((first, others)) = message.split_first() else {
        return [Ok(Hasher::new().finish()); 4];
    };
    match digest_four(*first, [others, others, others, others]) {
        Ok(four) => four.map(Ok),
        Err(long) => [Err(long); 4],
    }
}
