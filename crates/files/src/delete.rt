ghost use Rattle.std.specs.Prelude.{◌≡◌, Some};
ghost use Rattle.words.specs.Tables.{first_of};
ghost use Rattle.rules.specs.Refusals.{answer_of};
ghost use Rattle.rules.specs.Serves.{Did, buffers};
ghost use Rattle.rules.specs.Locks.{unpack};
ghost use Rattle.rules.specs.Call.{Ready, served};
ghost use Rattle.rules.specs.declared.routine.Routine.TheVariants.{Delete};
ghost use Rattle.rules.specs.Codes.{rows19};
ghost use Rattle.rules.specs.Vector.{vector_of};
ghost use Rattle.files.specs.By.{by19};

use directory::find::{Directory, is_missing};
use directory::name::legal_name;
use locklist::fcb::caller_file;
use locklist::pack::pack;
use rules::code::Refusal;
use rules::file::{File, Found};
use rules::item::MODE_LOCKED;
use rules::kind::Kind;
use rules::list::LockList;
use rules::size::{DMA_SIZE, FCB_SIZE, LIST_SIZE};
use writing::file::erase;
use writing::vector::release;

// The first refusal of 19.
#[tactic(auto, using(words::proofs::Sets::codes, crate::proofs::Removing::elsewhere_against, crate::proofs::Removing::entry_there), unfolding(rules::specs::Codes::rows19))]
fn delete_refusal(
    directory: &Directory,
    p: u8,
    l: &LockList,
    f: File,
    x: Found,
    fcb: &[u8; FCB_SIZE],
) -> Result<(), Refusal>
    ensures { answer_of result ≡ first_of (rows19 directory.now.kind p l.now f x fcb.now directory.now.image.now) }
{
    if !legal_name(fcb, 1) {
        return Err(Refusal::BadName);
    }
    if is_missing(directory.kind, x) {
        return Err(Refusal::NotFound);
    }
    // Another process has it open: a locked open could not stand beside that.
    if l.any_against(p, f, MODE_LOCKED) {
        return Err(Refusal::InUse);
    }
    if directory.entry(x.entry).is_read_only() {
        return Err(Refusal::ReadOnly);
    }
    Ok(())
}

// 19 on what was found: decide first, then clear the bits of the file's blocks and empty its entries. Where the caller
// has it open, at place `o` (64: none), its open and its locks on the file go together, as by 16.
#[tactic(auto, using(crate::proofs::Removing::deleting))]
fn delete_by(
    kind: Kind,
    p: u8,
    l: &LockList,
    o: usize,
    f: File,
    fcb: &[u8; FCB_SIZE],
    dma: &[u8; DMA_SIZE],
    list: &mut [u8; LIST_SIZE],
    image: &mut [u8],
    vector: &mut [u8],
) -> Result<(), Refusal>
    requires { Ready kind (buffers fcb.now dma.now list.old image.old) × (vector.old ≡ vector_of kind image.old) }
    ensures { Did (by19 kind p l.now o f (buffers fcb.now dma.now list.old image.old)) (answer_of result) (buffers fcb.now dma.now list.new image.new) × (vector.new ≡ vector_of kind image.new) }
{
    let directory = Directory {
        kind,
        image: &*image,
    };
    let x = directory.look_up(f);
    delete_refusal(&directory, p, l, f, x, fcb)?;
    release(kind, image, f, vector);
    erase(kind, image, f);
    if o < 64 {
        pack(&l.close(p, f), list);
    }
    Ok(())
}

// 19 on the buffers.
#[inline(never)]
#[tactic(auto, using(crate::proofs::Removing::delete_served))]
pub fn delete_file(
    kind: Kind,
    p: u8,
    l: &LockList,
    fcb: &[u8; FCB_SIZE],
    dma: &[u8; DMA_SIZE],
    list: &mut [u8; LIST_SIZE],
    image: &mut [u8],
    vector: &mut [u8],
) -> Result<(), Refusal>
    requires { (l.now ≡ unpack list.old) × Ready kind (buffers fcb.now dma.now list.old image.old) × (vector.old ≡ vector_of kind image.old) }
    ensures { Did (served kind (Some Delete) p 1 (buffers fcb.now dma.now list.old image.old)) (answer_of result) (buffers fcb.now dma.now list.new image.new) × (vector.new ≡ vector_of kind image.new) }
{
    let f = caller_file(l, p, fcb);
    let o = l.open_of(p, f);
    delete_by(kind, p, l, o, f, fcb, dma, list, image, vector)
}
