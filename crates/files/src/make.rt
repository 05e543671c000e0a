ghost use Rattle.std.specs.Prelude.{◌≡◌, Some};
ghost use Rattle.words.specs.Tables.{first_of};
ghost use Rattle.rules.specs.Refusals.{answer_of};
ghost use Rattle.rules.specs.Serves.{Did, buffers};
ghost use Rattle.rules.specs.Locks.{unpack};
ghost use Rattle.rules.specs.Call.{Ready, served};
ghost use Rattle.rules.specs.declared.routine.Routine.TheVariants.{Make};
ghost use Rattle.rules.specs.Codes.{rows22};
ghost use Rattle.files.specs.By.{by22};

use crate::limit::{at_open_limit, no_place};
use directory::entry::Entry;
use directory::find::{Directory, is_missing};
use directory::name::legal_name;
use locklist::fcb::{caller_file, make_mode, set_fcb};
use locklist::pack::pack;
use rules::code::Refusal;
use rules::file::{File, Found};
use rules::kind::{Kind, entries};
use rules::list::LockList;
use rules::size::{DMA_SIZE, FCB_SIZE, LIST_SIZE};
use writing::file::make_entry;

// The first refusal of 22.
#[tactic(auto, using(words::proofs::Sets::codes), unfolding(rules::specs::Codes::rows22))]
fn make_refusal(
    directory: &Directory,
    p: u8,
    l: &LockList,
    x: Found,
    fcb: &[u8; FCB_SIZE],
) -> Result<(), Refusal>
    ensures { answer_of result ≡ first_of (rows22 directory.now.kind p l.now x fcb.now directory.now.image.now) }
{
    if !legal_name(fcb, 1) {
        return Err(Refusal::BadName);
    }
    if !is_missing(directory.kind, x) {
        return Err(Refusal::Exists);
    }
    if at_open_limit(l, p) {
        return Err(Refusal::OpenLimit);
    }
    if no_place(l) {
        return Err(Refusal::OpenListFull);
    }
    if entries(directory.kind) <= directory.free_entry() {
        return Err(Refusal::NoEmptyEntry);
    }
    Ok(())
}

// 22 on what was found: decide first, then make the entry, the FCB and the item.
#[tactic(auto, using(crate::proofs::Making::making))]
fn make_by(
    kind: Kind,
    p: u8,
    l: &LockList,
    f: File,
    fcb: &mut [u8; FCB_SIZE],
    dma: &[u8; DMA_SIZE],
    list: &mut [u8; LIST_SIZE],
    image: &mut [u8],
) -> Result<(), Refusal>
    requires { Ready kind (buffers fcb.old dma.now list.old image.old) }
    ensures { Did (by22 kind p l.now f (buffers fcb.old dma.now list.old image.old)) (answer_of result) (buffers fcb.new dma.now list.new image.new) }
{
    let directory = Directory {
        kind,
        image: &*image,
    };
    let x = directory.look_up(f);
    make_refusal(&directory, p, l, x, fcb)?;
    let mode = make_mode(fcb);
    let e = directory.free_entry();
    make_entry(image, e, f);
    set_fcb(fcb, &Entry::at(&*image, e), mode, l.free_place());
    pack(&l.open(p, f, mode), list);
    Ok(())
}

// 22 on the buffers.
#[inline(never)]
#[tactic(auto, using(crate::proofs::Making::make_served))]
pub fn make_file(
    kind: Kind,
    p: u8,
    l: &LockList,
    fcb: &mut [u8; FCB_SIZE],
    dma: &[u8; DMA_SIZE],
    list: &mut [u8; LIST_SIZE],
    image: &mut [u8],
) -> Result<(), Refusal>
    requires { (l.now ≡ unpack list.old) × Ready kind (buffers fcb.old dma.now list.old image.old) }
    ensures { Did (served kind (Some Make) p 1 (buffers fcb.old dma.now list.old image.old)) (answer_of result) (buffers fcb.new dma.now list.new image.new) }
{
    let f = caller_file(l, p, fcb);
    make_by(kind, p, l, f, fcb, dma, list, image)
}
