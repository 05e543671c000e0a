ghost use Rattle.std.specs.Prelude.{◌≡◌, ◌≤◌, ◌<◌, Some};
ghost use Rattle.rules.specs.Refusals.{answer_of};
ghost use Rattle.rules.specs.Serves.{Did, buffers};
ghost use Rattle.rules.specs.Locks.{unpack};
ghost use Rattle.rules.specs.Call.{Ready, served};
ghost use Rattle.rules.specs.declared.routine.Routine.TheVariants.{Lock};
ghost use Rattle.locking.specs.By.{by42};

use crate::run::{Run, lacking, not_to_take, takes_effect};
use directory::find::Directory;
use locklist::fcb::{caller_file, record_of};
use locklist::pack::pack;
use rules::code::Refusal;
use rules::file::File;
use rules::kind::Kind;
use rules::list::LockList;
use rules::size::{DMA_SIZE, FCB_SIZE, LIST_SIZE};

// 42 on what was found: decide first, then lock the whole run. The caller's open is at place `o` (64: none).
#[tactic(auto, using(crate::proofs::Locking::locked))]
fn lock_by(
    kind: Kind,
    p: u8,
    l: &LockList,
    o: usize,
    f: File,
    run: Run,
    fcb: &[u8; FCB_SIZE],
    dma: &[u8; DMA_SIZE],
    list: &mut [u8; LIST_SIZE],
    image: &[u8],
) -> Result<(), Refusal>
    requires { (l.now.capacity ≤ 64) × Ready kind (buffers fcb.now dma.now list.old image.now) }
    ensures { Did (by42 kind p l.now o f run.first run.count (buffers fcb.now dma.now list.old image.now)) (answer_of result) (buffers fcb.now dma.now list.new image.now) }
{
    if !takes_effect(kind, l, o, run, dma)? {
        return Ok(());
    }
    let directory = Directory { kind, image };
    lacking(&directory, f, run)?;
    not_to_take(p, l, f, run)?;
    pack(&l.lock_run(p, f, run.first, run.count), list);
    Ok(())
}

// 42 on the buffers.
#[inline(never)]
#[tactic(auto, using(crate::proofs::Locking::lock_called))]
pub fn lock_records(
    kind: Kind,
    p: u8,
    l: &LockList,
    count: u32,
    fcb: &[u8; FCB_SIZE],
    dma: &[u8; DMA_SIZE],
    list: &mut [u8; LIST_SIZE],
    image: &[u8],
) -> Result<(), Refusal>
    requires { (l.now ≡ unpack list.old) × (1 ≤ count) × (count ≤ 16) × Ready kind (buffers fcb.now dma.now list.old image.now) }
    ensures { Did (served kind (Some Lock) p count (buffers fcb.now dma.now list.old image.now)) (answer_of result) (buffers fcb.now dma.now list.new image.now) }
{
    let f = caller_file(l, p, fcb);
    let o = l.open_of(p, f);
    let run = Run {
        first: record_of(fcb),
        count,
    };
    lock_by(kind, p, l, o, f, run, fcb, dma, list, image)
}
