// Hints: for each slot a number that is not above any thing of that slot.
ghost use Rattle.std.specs.Prelude.{◌<◌, ◌≤◌, get_or};
ghost use Rattle.words.specs.Hints.{Noted};

// The lower of the two.
fn lower(at: u8, n: usize) -> usize
    ensures { (result ≤ n) × (result ≤ at) }
{
    let at = at as usize;
    if at < n {
        return at;
    }
    n
}

// Where to begin to look among `n` for a thing of slot `h`.
pub fn hint(hints: &[u8; 256], h: usize, n: usize) -> usize
    requires { h < 256 }
    ensures { (result ≤ n) × (result ≤ get_or hints.now h 0) }
{
    lower(hints[h], n)
}

// Notes number `e` in slot `h`, which keeps a lower one.
pub fn note(hints: &mut [u8; 256], h: usize, e: u8)
    requires { h < 256 }
    ensures { Noted h e hints.old hints.new }
{
    if hints[h] <= e {
        return;
    }
    hints[h] = e;
}
