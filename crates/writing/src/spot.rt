ghost use Rattle.std.specs.Prelude.{◌≡◌, ◌≤◌};
ghost use Rattle.rules.specs.Kinds.{most};
ghost use Rattle.rules.specs.Drive.{blocks};
ghost use Rattle.rules.specs.Effects.{spot_at};
ghost use Rattle.rules.specs.Vector.{vector_of};

use directory::find::Directory;
use drive::free::free_block;
use rules::kind::entries;
use rules::spot::Spot;

// Where record `r` is to be written, its extent being at entry `e` (the number of entries: missing). Nothing is taken
// yet. `fresh` and `taken` say that the entry or the block is a new one, not whether there is one: so no Option.
#[tactic(auto, using(words::proofs::Sets::choices, words::proofs::Sets::leb_yes_as, words::proofs::Sets::leb_no_as, crate::proofs::Entries::spot_is), unfolding(rules::specs::Effects::spot_at))]
pub fn spot_at(directory: &Directory, vector: &[u8], e: usize, r: usize) -> Spot
    requires { (blocks directory.now.kind directory.now.image.now ≤ most directory.now.kind) × (vector.now ≡ vector_of directory.now.kind directory.now.image.now) }
    ensures { result ≡ spot_at directory.now.kind directory.now.image.now e r }
{
    if entries(directory.kind) <= e {
        return Spot {
            entry: directory.free_entry(),
            fresh: true,
            block: free_block(directory.kind, directory.image, vector),
            taken: true,
        };
    }
    let own = directory.block_in(e, r);
    if own == 0 {
        return Spot {
            entry: e,
            fresh: false,
            block: free_block(directory.kind, directory.image, vector),
            taken: true,
        };
    }
    Spot {
        entry: e,
        fresh: false,
        block: own,
        taken: false,
    }
}
