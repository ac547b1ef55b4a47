// The names in paths.
ghost use Rattle.std.specs.Prelude.{◌≡◌, ◌==◌};
ghost use Rattle.std.specs.List.{after_last};

// What stands between the parts of a path.
const SLASH: u8 = b'/';

// The last part of a path: what follows its last slash, or all of it where there is none.
pub fn name_of(path: &str) -> &str
    ensures { result.now ≡ after_last (λ b. b == SLASH) path.now }
{
    path.rsplit_once('/').map_or(path, |(_, name)| name)
}
