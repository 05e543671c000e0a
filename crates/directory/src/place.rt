ghost use Rattle.std.specs.Prelude.{◌≡◌, ◌*◌, ◌%◌, ◌<◌, ◌≤◌};
ghost use Rattle.rules.specs.Kinds.{block_size, block_records, numbers};
ghost use Rattle.rules.specs.Drive.{blocks, map_place, record_at};

use rules::kind::{Kind, block_records, block_size};

// The number of blocks.
#[tactic(auto, using(crate::proofs::Places::places))]
pub fn blocks_in(kind: Kind, image: &[u8]) -> usize
    ensures { result ≡ blocks kind image.now }
{
    image.len() / block_size(kind)
}

// The place of a record in its extent's map.
#[tactic(auto, using(crate::proofs::Places::places))]
pub fn map_place(kind: Kind, r: usize) -> usize
    ensures { (result ≡ map_place kind r) × (result < numbers kind) }
{
    r % 128 / block_records(kind)
}

// Where a block begins.
pub fn block_at(kind: Kind, block: usize) -> usize
    requires { block < 65536 }
    ensures { (result ≡ block_size kind * block) × (result ≤ 134217728) }
{
    block_size(kind) * block
}

// The place of a record in its block.
fn rest_of(kind: Kind, r: usize) -> usize
    ensures { (result ≡ r % block_records kind) × (result < 16) }
{
    r % block_records(kind)
}

// Where a record begins in its block of the image.
#[tactic(auto, using(crate::proofs::Places::places))]
pub fn record_at(kind: Kind, block: usize, r: usize) -> usize
    requires { block < 65536 }
    ensures { (result ≡ record_at kind block r) × (result ≤ 134219648) }
{
    block_at(kind, block) + 128 * rest_of(kind, r)
}
