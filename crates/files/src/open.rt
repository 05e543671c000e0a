ghost use Rattle.std.specs.Prelude.{◌≡◌, Some};
ghost use Rattle.words.specs.Tables.{first_of};
ghost use Rattle.rules.specs.Refusals.{answer_of};
ghost use Rattle.rules.specs.Serves.{Did, buffers};
ghost use Rattle.rules.specs.Call.{Ready, served};
ghost use Rattle.rules.specs.declared.routine.Routine.TheVariants.{Open};
ghost use Rattle.rules.specs.Locks.{unpack};
ghost use Rattle.rules.specs.Codes.{rows_new, rows15};
ghost use Rattle.files.specs.By.{by15};

use crate::limit::{at_open_limit, no_place};
use directory::entry::Entry;
use directory::find::{Directory, is_missing};
use directory::name::legal_name;
use locklist::fcb::{caller_file, open_mode, set_fcb};
use locklist::pack::pack;
use rules::code::Refusal;
use rules::file::{File, Found};
use rules::kind::Kind;
use rules::list::LockList;
use rules::size::{DMA_SIZE, FCB_SIZE, LIST_SIZE};

// The first refusal for a file that the caller has not open.
#[tactic(auto, using(words::proofs::Sets::codes), unfolding(rules::specs::Codes::rows_new))]
fn new_refusal(p: u8, l: &LockList, f: File, fcb: &[u8; FCB_SIZE]) -> Result<(), Refusal>
    ensures { answer_of result ≡ first_of (rows_new p l.now f fcb.now) }
{
    if l.any_against(p, f, open_mode(fcb)) {
        return Err(Refusal::InUse);
    }
    if at_open_limit(l, p) {
        return Err(Refusal::OpenLimit);
    }
    if no_place(l) {
        return Err(Refusal::OpenListFull);
    }
    Ok(())
}

// The first refusal of 15. The caller's open is at place `o`, 64 where there is none, as the tables of all calls have
// it; in the same mode it is success.
#[tactic(auto, using(crate::proofs::Opening::opens), unfolding(rules::specs::Codes::rows15, rules::specs::Locks::is_opened))]
fn open_refusal(
    kind: Kind,
    p: u8,
    l: &LockList,
    o: usize,
    f: File,
    x: Found,
    fcb: &[u8; FCB_SIZE],
) -> Result<(), Refusal>
    ensures { answer_of result ≡ first_of (rows15 kind p l.now o f x fcb.now) }
{
    if !legal_name(fcb, 1) {
        return Err(Refusal::BadName);
    }
    if is_missing(kind, x) {
        return Err(Refusal::NotFound);
    }
    if o < 64 {
        if l.mode_at(o) != open_mode(fcb) {
            return Err(Refusal::InUse);
        }
        return Ok(());
    }
    new_refusal(p, l, f, fcb)
}

// 15 on what was found: decide first, then open. A file that is open in the same mode gets no new item.
#[tactic(auto, using(crate::proofs::Opening::opening))]
fn open_by(
    kind: Kind,
    p: u8,
    l: &LockList,
    o: usize,
    f: File,
    fcb: &mut [u8; FCB_SIZE],
    dma: &[u8; DMA_SIZE],
    list: &mut [u8; LIST_SIZE],
    image: &[u8],
) -> Result<(), Refusal>
    requires { Ready kind (buffers fcb.old dma.now list.old image.now) }
    ensures { Did (by15 kind p l.now o f (buffers fcb.old dma.now list.old image.now)) (answer_of result) (buffers fcb.new dma.now list.new image.now) }
{
    let directory = Directory { kind, image };
    let x = directory.look_up(f);
    open_refusal(kind, p, l, o, f, x, fcb)?;
    let entry = Entry::at(image, x.entry);
    let mode = open_mode(fcb);
    if o < 64 {
        set_fcb(fcb, &entry, mode, o);
        return Ok(());
    }
    set_fcb(fcb, &entry, mode, l.free_place());
    pack(&l.open(p, f, mode), list);
    Ok(())
}

// 15 on the buffers.
#[inline(never)]
#[tactic(auto, using(crate::proofs::Opening::open_served))]
pub fn open_file(
    kind: Kind,
    p: u8,
    l: &LockList,
    fcb: &mut [u8; FCB_SIZE],
    dma: &[u8; DMA_SIZE],
    list: &mut [u8; LIST_SIZE],
    image: &[u8],
) -> Result<(), Refusal>
    requires { (l.now ≡ unpack list.old) × Ready kind (buffers fcb.old dma.now list.old image.now) }
    ensures { Did (served kind (Some Open) p 1 (buffers fcb.old dma.now list.old image.now)) (answer_of result) (buffers fcb.new dma.now list.new image.now) }
{
    let f = caller_file(l, p, fcb);
    let o = l.open_of(p, f);
    open_by(kind, p, l, o, f, fcb, dma, list, image)
}
