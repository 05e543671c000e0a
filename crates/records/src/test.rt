ghost use Rattle.std.specs.Prelude.{◌≡◌, ◌+◌, ◌≤◌, length, Some};
ghost use Rattle.words.specs.Tests.{any};
ghost use Rattle.rules.specs.Serves.{Did, buffers};
ghost use Rattle.rules.specs.Codes.{differs};
ghost use Rattle.rules.specs.Refusals.{answer_of};
ghost use Rattle.rules.specs.Locks.{unpack, open_of};
ghost use Rattle.rules.specs.Asks.{caller_file};
ghost use Rattle.rules.specs.Vector.{vector_of};
ghost use Rattle.rules.specs.Call.{Ready, served};
ghost use Rattle.rules.specs.declared.routine.Routine.TheVariants.{TestWrite};
ghost use Rattle.records.specs.By.{by41};

use crate::may::may_write;
use crate::there::not_there;
use directory::entry::Entry;
use directory::find::Directory;
use directory::place::record_at;
use locklist::fcb::{caller_file, record_of};
use rules::code::Refusal;
use rules::file::File;
use rules::kind::Kind;
use rules::list::LockList;
use rules::size::{DMA_SIZE, FCB_SIZE, LIST_SIZE};
use writing::record::write_record;
use writing::spot::spot_at;

// The first 128 bytes of the DMA differ from those of the image from `at` on.
#[tactic(auto, using(crate::proofs::Testing::differing))]
fn any_differs(dma: &[u8; DMA_SIZE], image: &[u8], at: usize) -> bool
    requires { at + 128 ≤ length image.now }
    ensures { result ≡ any (differs dma.now image.now at) 128 }
{
    dma[..128] != image[at..at + 128]
}

// 41 on what was found: decide first, then write.
#[tactic(auto, using(crate::proofs::Testing::tested))]
fn test_by(
    kind: Kind,
    p: u8,
    l: &LockList,
    o: usize,
    f: File,
    r: u32,
    fcb: &[u8; FCB_SIZE],
    dma: &[u8; DMA_SIZE],
    list: &[u8; LIST_SIZE],
    image: &mut [u8],
    vector: &[u8],
) -> Result<(), Refusal>
    requires { (l.now ≡ unpack list.now) × (f ≡ caller_file p l.now fcb.now) × (o ≡ open_of l.now p f) × Ready kind (buffers fcb.now dma.now list.now image.old) × (vector.now ≡ vector_of kind image.old) }
    ensures { Did (by41 kind p l.now o f r (buffers fcb.now dma.now list.now image.old)) (answer_of result) (buffers fcb.now dma.now list.now image.new) × (vector.now ≡ vector_of kind image.new) }
{
    let directory = Directory {
        kind,
        image: &*image,
    };
    let first = directory.entry_of(f, 0);
    may_write(kind, p, l, o, f, &Entry::at(&*image, first), r)?;
    let number = r as usize;
    let e = directory.entry_of(f, number / 128);
    not_there(&directory, e, number)?;
    let w = spot_at(&directory, vector, e, number);
    if any_differs(dma, image, record_at(kind, w.block, number)) {
        return Err(Refusal::Differs);
    }
    write_record(kind, image, false, w, first, f, number, &dma[128..256]);
    Ok(())
}

// 41 on the buffers. It takes no block, so the vector stays as it is.
#[tactic(auto, using(crate::proofs::Testing::test_called))]
pub fn test_write(
    kind: Kind,
    p: u8,
    l: &LockList,
    fcb: &[u8; FCB_SIZE],
    dma: &[u8; DMA_SIZE],
    list: &[u8; LIST_SIZE],
    image: &mut [u8],
    vector: &[u8],
) -> Result<(), Refusal>
    requires { (l.now ≡ unpack list.now) × Ready kind (buffers fcb.now dma.now list.now image.old) × (vector.now ≡ vector_of kind image.old) }
    ensures { Did (served kind (Some TestWrite) p 1 (buffers fcb.now dma.now list.now image.old)) (answer_of result) (buffers fcb.now dma.now list.now image.new) × (vector.now ≡ vector_of kind image.new) }
{
    let f = caller_file(l, p, fcb);
    let o = l.open_of(p, f);
    let r = record_of(fcb);
    test_by(kind, p, l, o, f, r, fcb, dma, list, image, vector)
}
