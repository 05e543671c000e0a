ghost use Rattle.std.specs.Prelude.{◌≡◌, ◌≤◌, ◌<◌, Some};
ghost use Rattle.rules.specs.Refusals.{answer_of};
ghost use Rattle.rules.specs.Serves.{Did, buffers};
ghost use Rattle.rules.specs.Locks.{unpack};
ghost use Rattle.rules.specs.Call.{Ready, served};
ghost use Rattle.rules.specs.declared.routine.Routine.TheVariants.{Unlock};
ghost use Rattle.locking.specs.By.{by43};

use crate::run::{Run, takes_effect};
use locklist::fcb::{caller_file, record_of};
use locklist::pack::pack;
use rules::code::Refusal;
use rules::file::File;
use rules::kind::Kind;
use rules::list::LockList;
use rules::size::{DMA_SIZE, FCB_SIZE, LIST_SIZE};

// 43 on what was found: decide first, then take the run's locks away. The caller's open is at place `o` (64: none).
#[tactic(auto, using(crate::proofs::Locking::unlocked))]
fn unlock_by(
    kind: Kind,
    p: u8,
    l: &LockList,
    o: usize,
    f: File,
    run: Run,
    fcb: &[u8; FCB_SIZE],
    dma: &[u8; DMA_SIZE],
    list: &mut [u8; LIST_SIZE],
    image: &[u8],
) -> Result<(), Refusal>
    requires { Ready kind (buffers fcb.now dma.now list.old image.now) }
    ensures { Did (by43 kind p l.now o f run.first run.count (buffers fcb.now dma.now list.old image.now)) (answer_of result) (buffers fcb.now dma.now list.new image.now) }
{
    if takes_effect(kind, l, o, run, dma)? {
        pack(&l.unlock(p, f, run.first, run.count), list);
    }
    Ok(())
}

// 43 on the buffers.
#[inline(never)]
#[tactic(auto, using(crate::proofs::Locking::unlock_served))]
pub fn unlock_records(
    kind: Kind,
    p: u8,
    l: &LockList,
    count: u32,
    fcb: &[u8; FCB_SIZE],
    dma: &[u8; DMA_SIZE],
    list: &mut [u8; LIST_SIZE],
    image: &[u8],
) -> Result<(), Refusal>
    requires { (l.now ≡ unpack list.old) × (1 ≤ count) × (count ≤ 16) × Ready kind (buffers fcb.now dma.now list.old image.now) }
    ensures { Did (served kind (Some Unlock) p count (buffers fcb.now dma.now list.old image.now)) (answer_of result) (buffers fcb.now dma.now list.new image.now) }
{
    let f = caller_file(l, p, fcb);
    let o = l.open_of(p, f);
    let run = Run {
        first: record_of(fcb),
        count,
    };
    unlock_by(kind, p, l, o, f, run, fcb, dma, list, image)
}
