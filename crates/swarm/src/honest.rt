// That a peer which keeps to the rules step by step is one of whom the promise speaks.
ghost use Rattle.std.specs.Prelude.{◌≡◌, true};
ghost use Rattle.swarm.specs.Code.{CodeGivesOne};
ghost use Rattle.swarm.specs.Honest.{HonestIsCode, HonestIsMet};

// For states of any type `S`: an honest peer's code is `Code`, `Code` gives one piece more in a turn, and there are honest peers.
pub fn honest_is_code<S>() -> bool
    ensures yes { result ≡ true }
    ensures code { HonestIsCode S }
    ensures gives { CodeGivesOne S }
    ensures met { HonestIsMet }
{
    true
}
