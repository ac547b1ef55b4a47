// After how many rounds every honest peer has every piece.
ghost use Rattle.std.specs.Prelude.{◌≡◌, ◌-◌, ◌*◌};
ghost use Rattle.swarm.specs.Levels.{AllDoneWithin, Enough, EnoughWithin};
ghost use Rattle.swarm.specs.Promise.{Main};

// Enough for `peers` peers and `pieces` pieces where each neighbor has its turn in every `window` rounds.
pub fn rounds_enough(window: u32, peers: u32, pieces: u32) -> u128
    ensures value { result ≡ window * (peers * pieces) }
    ensures enough { Enough window peers pieces result }
    ensures promise { Main }
{
    u128::from(window) * (u128::from(peers) * u128::from(pieces))
}

// The same, less by what somebody has at the start, which needs no round there; enough for a run of just so many rounds.
pub fn least_rounds_enough(window: u32, peers: u32, pieces: u32) -> u128
    ensures value { result ≡ window * (peers * pieces - pieces) }
    ensures enough { EnoughWithin window peers pieces result }
    ensures promise { AllDoneWithin }
{
    let all = u128::from(peers) * u128::from(pieces);
    u128::from(window) * all.saturating_sub(u128::from(pieces))
}
