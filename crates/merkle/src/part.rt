// What a way down a tree goes by: parts of the tree that halve until a leaf is left, each with its root.
ghost use Rattle.std.specs.Prelude.{◌≡◌, ℕ, ◌<◌, ◌≤◌, List, length, take, drop};
ghost use Rattle.bytetree.specs.ByteTree.{root};
ghost use Rattle.std.specs.Option as Options;
ghost use Rattle.swarm.specs.Tree.{cut};

pub(crate) trait Part: Copy {
    // The leaf digests below it.
    ghost leaves: { Self → List (List ℕ) };

    // How many leaves are below it.
    fn len(self) -> usize
        ensures { result ≡ length (leaves self) };

    // Its halves; nothing where it is a single leaf.
    fn halves(self) -> Option<(Self, Self)>
        ensures { Options.MatchOption result (length (leaves self) ≡ 1) (λ p. (1 < length (leaves self)) × (leaves p.0 ≡ take (cut (length (leaves self))) (leaves self)) × (leaves p.1 ≡ drop (cut (length (leaves self))) (leaves self))) };

    // The root over it.
    fn root(self) -> [u8; 32]
        ensures { result ≡ root (leaves self) };

    // There are no more leaves than a file has pieces.
    ghost few: { (part : Self) → length (leaves part) ≤ 65536 };
}
