ghost use Rattle.std.specs.Prelude.{◌≡◌, ◌+◌, ◌*◌, ◌/◌, ◌≤◌, length, Some};
ghost use Rattle.words.specs.Bytes.{part, put};
ghost use Rattle.rules.specs.Serves.{Did, buffers};
ghost use Rattle.rules.specs.Locks.{unpack, user_of};
ghost use Rattle.rules.specs.Effects.{match_from, searched};
ghost use Rattle.rules.specs.Call.{Ready, served};
ghost use Rattle.rules.specs.declared.routine.Routine.TheVariants.{SearchFirst, SearchNext};

use crate::pattern::match_from;
use directory::find::Directory;
use locklist::pack::pack;
use rules::code::NO_MATCH;
use rules::kind::{Kind, entries};
use rules::list::LockList;
use rules::size::{DMA_SIZE, FCB_SIZE, LIST_SIZE};
use words::byte::put_bytes;

// The directory record with entry `e` goes to the DMA.
fn show(e: usize, dma: &mut [u8; DMA_SIZE], image: &[u8])
    requires { 128 * (e / 4) + 128 ≤ length image.now }
    ensures { dma.new ≡ put 0 (part (128 * (e / 4)) 128 image.now) dma.old }
{
    let at = 128 * (e / 4);
    put_bytes(dma, 0, &image[at..at + 128]);
}

// A search on the buffers from an entry on: a find leaves the entry after it as the position, no find the number of
// entries.
#[tactic(auto, using(crate::proofs::Finding::sizes))]
fn search_from(
    kind: Kind,
    from: usize,
    p: u8,
    l: &LockList,
    fcb: &[u8; FCB_SIZE],
    dma: &mut [u8; DMA_SIZE],
    list: &mut [u8; LIST_SIZE],
    image: &[u8],
) -> u32
    requires { Ready kind (buffers fcb.now dma.old list.old image.now) }
    ensures { Did (searched kind p l.now (match_from kind from (user_of l.now p) fcb.now image.now) (buffers fcb.now dma.old list.old image.now)) result (buffers fcb.now dma.new list.new image.now) }
{
    let directory = Directory { kind, image };
    let (next, told) = match match_from(&directory, from, l.user_of(p), fcb) {
        Some(e) => {
            show(e, dma, image);
            ((e + 1) as u8, (e % 4) as u32)
        }
        None => (entries(kind) as u8, NO_MATCH),
    };
    pack(&l.move_to(p, next), list);
    told
}

// 17 on the buffers: from entry 0 on.
pub fn search_first(
    kind: Kind,
    p: u8,
    l: &LockList,
    fcb: &[u8; FCB_SIZE],
    dma: &mut [u8; DMA_SIZE],
    list: &mut [u8; LIST_SIZE],
    image: &[u8],
) -> u32
    requires { (l.now ≡ unpack list.old) × Ready kind (buffers fcb.now dma.old list.old image.now) }
    ensures { Did (served kind (Some SearchFirst) p 1 (buffers fcb.now dma.old list.old image.now)) result (buffers fcb.now dma.new list.new image.now) }
{
    search_from(kind, 0, p, l, fcb, dma, list, image)
}

// 18 on the buffers: from the caller's position on.
pub fn search_next(
    kind: Kind,
    p: u8,
    l: &LockList,
    fcb: &[u8; FCB_SIZE],
    dma: &mut [u8; DMA_SIZE],
    list: &mut [u8; LIST_SIZE],
    image: &[u8],
) -> u32
    requires { (l.now ≡ unpack list.old) × Ready kind (buffers fcb.now dma.old list.old image.now) }
    ensures { Did (served kind (Some SearchNext) p 1 (buffers fcb.now dma.old list.old image.now)) result (buffers fcb.now dma.new list.new image.now) }
{
    let from = usize::from(l.position_of(p));
    search_from(kind, from, p, l, fcb, dma, list, image)
}
