ghost use Rattle.std.specs.Prelude.{◌≡◌, ◌*◌, ◌≤◌, Some};
ghost use Rattle.rules.specs.Kinds.{block_records, most};
ghost use Rattle.rules.specs.Drive.{blocks, free_blocks};
ghost use Rattle.rules.specs.Vector.{vector_of};
ghost use Rattle.rules.specs.Serves.{Did, buffers};
ghost use Rattle.rules.specs.Call.{Ready, served};
ghost use Rattle.rules.specs.declared.routine.Routine.TheVariants.{FreeSpace};

use drive::free::free_blocks;
use rules::kind::{Kind, block_records};
use rules::size::{DMA_SIZE, FCB_SIZE, LIST_SIZE};
use words::byte::{put_bytes, three_bytes};

// The records of all free blocks.
#[tactic(auto, using(crate::proofs::Testing::space_fits, rules::proofs::Sizes::most_fits))]
fn free_records(kind: Kind, image: &[u8], vector: &[u8]) -> usize
    requires { (blocks kind image.now ≤ most kind) × (vector.now ≡ vector_of kind image.now) }
    ensures { result ≡ block_records kind * free_blocks kind image.now }
{
    block_records(kind) * free_blocks(kind, image, vector)
}

// 46 on the buffers, counted by the vector. It is never refused: its answer is 0.
#[tactic(auto, using(crate::proofs::Testing::space_done))]
pub fn free_space(
    kind: Kind,
    p: u8,
    fcb: &[u8; FCB_SIZE],
    dma: &mut [u8; DMA_SIZE],
    list: &[u8; LIST_SIZE],
    image: &[u8],
    vector: &[u8],
)
    requires { Ready kind (buffers fcb.now dma.old list.now image.now) × (vector.now ≡ vector_of kind image.now) }
    ensures { Did (served kind (Some FreeSpace) p 1 (buffers fcb.now dma.old list.now image.now)) 0 (buffers fcb.now dma.new list.now image.now) }
{
    let v = three_bytes(free_records(kind, image, vector));
    put_bytes(dma, 0, &v);
}
