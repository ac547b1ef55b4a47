// The working variables of SHA-256, and one round on them.
ghost use Rattle.std.specs.Prelude.{◌≡◌, ℕ, ◌<◌};
ghost use Rattle.std.specs.Simd.Lanes.{zip2};
ghost use Rattle.sha256.specs.Sha256.{round};
ghost use Rattle.sha256.specs.Steps.{values};
ghost use Rattle.sha256.specs.Words.{add};

use crate::words::{Word, big_sigma0, big_sigma1, choose, majority};

#[derive(Clone, Copy)]
pub(crate) struct Variables<W> {
    pub(crate) a: W,
    pub(crate) b: W,
    pub(crate) c: W,
    pub(crate) d: W,
    pub(crate) e: W,
    pub(crate) f: W,
    pub(crate) g: W,
    pub(crate) h: W,
}

// One round, with one constant for all lanes and a word for each.
pub(crate) fn round<W: Word>(v: Variables<W>, constant: u32, word: W) -> Variables<W>
    ensures { (i : ℕ) → i < W.lanes → values (W.lane i) result ≡ round constant (W.lane i word) (values (W.lane i) v) }
{
    let t1 = v
        .h
        .plus(big_sigma1(v.e))
        .plus(choose(v.e, v.f, v.g))
        .plus(W::splat(constant))
        .plus(word);
    let t2 = big_sigma0(v.a).plus(majority(v.a, v.b, v.c));
    Variables {
        a: t1.plus(t2),
        b: v.a,
        c: v.b,
        d: v.c,
        e: v.d.plus(t1),
        f: v.e,
        g: v.f,
        h: v.g,
    }
}

impl<W: Word> Variables<W> {
    // The sum of each variable and that of the other.
    pub(crate) fn plus(self, other: Variables<W>) -> Variables<W>
        ensures { (i : ℕ) → i < W.lanes → values (W.lane i) result ≡ zip2 add (values (W.lane i) self) (values (W.lane i) other) }
    {
        Variables {
            a: self.a.plus(other.a),
            b: self.b.plus(other.b),
            c: self.c.plus(other.c),
            d: self.d.plus(other.d),
            e: self.e.plus(other.e),
            f: self.f.plus(other.f),
            g: self.g.plus(other.g),
            h: self.h.plus(other.h),
        }
    }
}
