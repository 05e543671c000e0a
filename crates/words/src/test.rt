// Tests joined without a branch: a loop over `both` looks at all of its bytes, which is quicker for a few than to stop.
ghost use Rattle.std.specs.Prelude.{◌≡◌};
ghost use Rattle.words.specs.Tests.{◌and◌};

// Both hold.
pub fn both(a: bool, b: bool) -> bool
    ensures { result ≡ (a and b) }
{
    if a {
        return b;
    }
    false
}
