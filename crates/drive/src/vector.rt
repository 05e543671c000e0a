ghost use Rattle.std.specs.Prelude.{◌≡◌, replicate};
ghost use Rattle.words.specs.Hints.{Hints};
ghost use Rattle.rules.specs.Kinds.{vector_size};
ghost use Rattle.rules.specs.Refusals.{answer_of};
ghost use Rattle.rules.specs.Vector.{built, build};
ghost use Rattle.index.specs.Slots.{slot_at, in_use};
ghost use Rattle.drive.specs.Walks.{Vectored};

use crate::check::sound_marked;
use rules::code::Refusal;
use rules::kind::{Kind, vector_size};
use words::bits::set;

// The image is sound; the hints then know its entries, and `seen`, all zeros before, is its vector: the marks of the
// check, and the two blocks of the directory.
#[tactic(auto, using(crate::proofs::Taken::vectoring))]
pub fn sound_vector(kind: Kind, image: &[u8], seen: &mut [u8], hints: &mut [u8; 256]) -> bool
    requires { (seen.old ≡ replicate (vector_size kind) 0) × Hints (slot_at image.now) (in_use image.now) 0 hints.old }
    ensures { Vectored kind image.now result seen.new hints.new }
{
    if !sound_marked(kind, image, &mut *seen, hints) {
        return false;
    }
    set(&mut *seen, 0);
    set(seen, 1);
    true
}

// Builds the vector of the image in `seen`, all zeros before, and copies it.
#[tactic(auto, using(crate::proofs::Taken::building))]
fn build_in(kind: Kind, image: &[u8], seen: &mut [u8], vector: &mut [u8]) -> Result<(), Refusal>
    requires { seen.old ≡ replicate (vector_size kind) 0 }
    ensures { built (answer_of result) vector.new ≡ build kind image.now vector.old }
{
    if vector.len() != seen.len() {
        return Err(Refusal::BadCall);
    }
    let mut hints = [255u8; 256];
    if !sound_vector(kind, image, &mut *seen, &mut hints) {
        return Err(Refusal::BadImage);
    }
    vector.copy_from_slice(&*seen);
    Ok(())
}

// Builds the vector of the image: 32 bytes on a drive of the first kind, 512 on one of the second. A vector of another
// length and an unsound image are refused, and the vector is left.
#[tactic(auto, using(crate::proofs::Taken::lent_first))]
pub fn build_vector(kind: Kind, image: &[u8], vector: &mut [u8]) -> Result<(), Refusal>
    ensures { built (answer_of result) vector.new ≡ build kind image.now vector.old }
{
    let mut seen = [0u8; 512];
    let n = vector_size(kind);
    build_in(kind, image, &mut seen[..n], vector)
}
