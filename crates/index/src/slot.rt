ghost use Rattle.std.specs.Prelude.{◌≡◌, ◌<◌};
ghost use Rattle.index.specs.Slots.{mix, slot_of};

use rules::file::File;

// What each byte of a name counts in its slot: powers of 11, so that names numbered 00 to 99 have slots of their own.
const WEIGHTS: [usize; 11] = [1, 11, 121, 51, 49, 27, 41, 195, 97, 43, 217];

// A number made of a name.
fn mixed(name: [u8; 11]) -> usize
    ensures { (result ≡ mix name) × (result < 1048576) }
{
    let mut sum = 0;
    for (k, byte) in name.iter().enumerate() {
        sum += WEIGHTS[k] * usize::from(*byte);
    }
    sum
}

// The slot of an extent of a file.
#[tactic(auto, unfolding(crate::specs::Slots::slot_of))]
pub fn slot_of(f: File, extent: usize) -> usize
    ensures { (result ≡ slot_of f extent) × (result < 256) }
{
    (mixed(f.name) + 85 * usize::from(f.user) + 17 * (extent % 256)) % 256
}
