// What a file is known by.
ghost use Rattle.std.specs.Prelude.{◌≡◌};
ghost use Rattle.std.proofs.Math.ListN as Lists;
ghost use Rattle.merkle.specs.Lengths.{IsLength};

#[derive(Clone, Copy)]
pub struct Numbers {
    pub(crate) length: u64,
    pub(crate) root: [u8; 32],
    ghost possible: { IsLength length },
    ghost sized: { Lists.length root ≡ 32 },
}
