ghost use Rattle.std.specs.Prelude.{◌≡◌, ◌≤◌};
ghost use Rattle.rules.specs.Kinds.{most};
ghost use Rattle.rules.specs.Drive.{blocks, free_block, free_blocks};
ghost use Rattle.rules.specs.Vector.{vector_of};

use directory::place::blocks_in;
use rules::kind::Kind;
use words::bits::{clear_count, lowest_clear};

// The lowest free block, the number of blocks where there is none: the lowest bit of the vector that is clear.
#[tactic(auto, using(crate::proofs::Marks::freeing))]
pub fn free_block(kind: Kind, image: &[u8], vector: &[u8]) -> usize
    requires { (blocks kind image.now ≤ most kind) × (vector.now ≡ vector_of kind image.now) }
    ensures { (result ≡ free_block kind image.now) × (result ≤ blocks kind image.now) }
{
    lowest_clear(vector, blocks_in(kind, image))
}

// How many blocks are free.
#[tactic(auto, using(crate::proofs::Marks::freeing))]
pub fn free_blocks(kind: Kind, image: &[u8], vector: &[u8]) -> usize
    requires { (blocks kind image.now ≤ most kind) × (vector.now ≡ vector_of kind image.now) }
    ensures { (result ≡ free_blocks kind image.now) × (result ≤ blocks kind image.now) }
{
    clear_count(vector, blocks_in(kind, image))
}
