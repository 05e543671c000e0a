ghost use Rattle.std.specs.Prelude.{◌≡◌, Some};
ghost use Rattle.rules.specs.Refusals.{answer_of};
ghost use Rattle.rules.specs.Serves.{Did, buffers};
ghost use Rattle.rules.specs.Locks.{unpack};
ghost use Rattle.rules.specs.Call.{Ready, served};
ghost use Rattle.rules.specs.declared.routine.Routine.TheVariants.{Close};

use locklist::fcb::caller_file;
use locklist::pack::pack;
use rules::code::Refusal;
use rules::kind::Kind;
use rules::list::LockList;
use rules::size::{DMA_SIZE, FCB_SIZE, LIST_SIZE};

// 16 on the buffers: the caller's open and its locks on the file go together.
#[inline(never)]
#[tactic(auto, using(crate::proofs::Opening::closing))]
pub fn close_file(
    kind: Kind,
    p: u8,
    l: &LockList,
    fcb: &[u8; FCB_SIZE],
    dma: &[u8; DMA_SIZE],
    list: &mut [u8; LIST_SIZE],
    image: &[u8],
) -> Result<(), Refusal>
    requires { (l.now ≡ unpack list.old) × Ready kind (buffers fcb.now dma.now list.old image.now) }
    ensures { Did (served kind (Some Close) p 1 (buffers fcb.now dma.now list.old image.now)) (answer_of result) (buffers fcb.now dma.now list.new image.now) }
{
    let f = caller_file(l, p, fcb);
    if 64 <= l.open_of(p, f) {
        return Err(Refusal::CloseNotOpen);
    }
    pack(&l.close(p, f), list);
    Ok(())
}
