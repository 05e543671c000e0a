ghost use Rattle.std.specs.Prelude.{◌≡◌, ◌+◌, ◌*◌, ◌/◌, ◌≤◌, ◌<◌};
ghost use Rattle.rules.specs.Kinds.{entries};
ghost use Rattle.rules.specs.Drive.{entry_of};
ghost use Rattle.directory.specs.Runs.{Known};

use crate::find::Directory;
use rules::file::File;

// The entry of the extent with record `r` + `i` of the run: looked up for the first record and where an extent begins,
// else still `e`.
#[tactic(auto, using(crate::proofs::Runs::known_still))]
pub fn entry_at(directory: &Directory, f: File, r: usize, i: usize, e: usize) -> usize
    requires { (i < 16) × (r < 16777216) × Known directory.now.kind directory.now.image.now f r i e }
    ensures { (result ≡ entry_of directory.now.kind directory.now.image.now f ((r + i) / 128)) × (result ≤ entries directory.now.kind) }
{
    let at = r + i;
    if i == 0 || at % 128 == 0 {
        return directory.entry_of(f, at / 128);
    }
    e
}
