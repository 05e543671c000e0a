ghost use Rattle.std.specs.Prelude.{◌≡◌, Some};
ghost use Rattle.rules.specs.Serves.{Did, buffers};
ghost use Rattle.rules.specs.Locks.{unpack};
ghost use Rattle.rules.specs.Call.{Ready, served};
ghost use Rattle.rules.specs.declared.routine.Routine.TheVariants.{Terminate};

use locklist::pack::pack;
use rules::kind::{Kind, entries};
use rules::list::LockList;
use rules::size::{DMA_SIZE, FCB_SIZE, LIST_SIZE};

// 143 on the buffers: whatever the process holds is taken back, and its search ends. It is never refused.
#[inline(never)]
#[tactic(auto, using(crate::proofs::Locking::terminates))]
pub fn terminate(
    kind: Kind,
    p: u8,
    l: &LockList,
    fcb: &[u8; FCB_SIZE],
    dma: &[u8; DMA_SIZE],
    list: &mut [u8; LIST_SIZE],
    image: &[u8],
)
    requires { (l.now ≡ unpack list.old) × Ready kind (buffers fcb.now dma.now list.old image.now) }
    ensures { Did (served kind (Some Terminate) p 1 (buffers fcb.now dma.now list.old image.now)) 0 (buffers fcb.now dma.now list.new image.now) }
{
    let none = entries(kind) as u8;
    let gone = l.terminate(p);
    pack(&gone.move_to(p, none), list);
}
