ghost use Rattle.std.specs.Prelude.{◌≡◌, true, ◌+◌, ◌*◌, ◌/◌, ◌≤◌, length, Some};
ghost use Rattle.words.specs.Tables.{first_of};
ghost use Rattle.rules.specs.Kinds.{most, entries};
ghost use Rattle.rules.specs.Serves.{Did, buffers};
ghost use Rattle.rules.specs.Drive.{blocks, entry_of, sound_image};
ghost use Rattle.rules.specs.Effects.{spot_at};
ghost use Rattle.rules.specs.Codes.{rows_room};
ghost use Rattle.rules.specs.Refusals.{answer_of};
ghost use Rattle.rules.specs.Locks.{unpack, open_of};
ghost use Rattle.rules.specs.Asks.{caller_file};
ghost use Rattle.rules.specs.Vector.{vector_of};
ghost use Rattle.rules.specs.Call.{Ready, served};
ghost use Rattle.records.specs.By.{entry_or, write_routine, OneDid, marked_by, by34};

use crate::may::{may_write_by, write_stopped};
use directory::entry::Entry;
use directory::find::Directory;
use directory::place::blocks_in;
use locklist::fcb::{caller_file, record_of};
use rules::code::Refusal;
use rules::file::File;
use rules::kind::{Kind, entries};
use rules::list::LockList;
use rules::size::{DMA_SIZE, FCB_SIZE, LIST_SIZE};
use rules::spot::Spot;
use writing::record::write_record;
use writing::spot::spot_at;
use writing::vector::mark_taken;

// Refuses for want of room at the spot.
#[tactic(auto, using(crate::proofs::Writing::rooms))]
fn no_room(directory: &Directory, w: Spot, e: usize, r: usize) -> Result<(), Refusal>
    requires { w ≡ spot_at directory.now.kind directory.now.image.now e r }
    ensures { answer_of result ≡ first_of (rows_room directory.now.kind directory.now.image.now e r) }
{
    if w.fresh && entries(directory.kind) <= w.entry {
        return Err(Refusal::DirectoryFull);
    }
    if w.taken && blocks_in(directory.kind, directory.image) <= w.block {
        return Err(Refusal::DiskFull);
    }
    Ok(())
}

// One record: decide first, then write. The file's extent 0 is at entry `first`, the record's extent at entry `e` (64:
// missing). Tells the entry where that extent then stands.
#[tactic(auto, using(crate::proofs::Marking::ones))]
pub fn write_one(
    kind: Kind,
    zeros: bool,
    o: usize,
    stopped: bool,
    locked: bool,
    f: File,
    first: usize,
    e: usize,
    r: u32,
    v: &[u8],
    image: &mut [u8],
    vector: &mut [u8],
) -> Result<usize, Refusal>
    requires { (128 ≤ length v.now) × (32 * entries kind + 32 ≤ length image.old) × (blocks kind image.old ≤ most kind) × (first ≤ entries kind) × (e ≤ entries kind) × (sound_image kind image.old ≡ true) × (e ≡ entry_of kind image.old f (r / 128)) × (vector.old ≡ vector_of kind image.old) }
    ensures { OneDid kind zeros o stopped locked f first e r v.now image.old (answer_of result) (entry_or e result) image.new × (vector.new ≡ marked_by (answer_of result) (spot_at kind image.old e r) vector.old) }
{
    may_write_by(kind, o, stopped, r, locked)?;
    let at = r as usize;
    let directory = Directory {
        kind,
        image: &*image,
    };
    let w = spot_at(&directory, vector, e, at);
    no_room(&directory, w, e, at)?;
    write_record(kind, image, zeros, w, first, f, at, v);
    mark_taken(w, vector);
    Ok(w.entry)
}

// 34 and 40 on what was found.
#[tactic(auto, using(crate::proofs::Marking::written_by))]
fn write_by(
    kind: Kind,
    zeros: bool,
    p: u8,
    l: &LockList,
    o: usize,
    f: File,
    r: u32,
    fcb: &[u8; FCB_SIZE],
    dma: &[u8; DMA_SIZE],
    list: &[u8; LIST_SIZE],
    image: &mut [u8],
    vector: &mut [u8],
) -> Result<(), Refusal>
    requires { (l.now ≡ unpack list.now) × (f ≡ caller_file p l.now fcb.now) × (o ≡ open_of l.now p f) × Ready kind (buffers fcb.now dma.now list.now image.old) × (vector.old ≡ vector_of kind image.old) }
    ensures { Did (by34 kind zeros p l.now o f r (buffers fcb.now dma.now list.now image.old)) (answer_of result) (buffers fcb.now dma.now list.now image.new) × (vector.new ≡ vector_of kind image.new) }
{
    let directory = Directory {
        kind,
        image: &*image,
    };
    let first = directory.entry_of(f, 0);
    let e = directory.entry_of(f, r as usize / 128);
    let stopped = write_stopped(l.mode_at(o), &Entry::at(&*image, first));
    let locked = l.locked_by_other(p, f, r);
    write_one(
        kind, zeros, o, stopped, locked, f, first, e, r, dma, image, vector,
    )?;
    Ok(())
}

// 34 and 40 (`zeros`) on the buffers.
#[tactic(auto, using(crate::proofs::Writing::write_called))]
pub fn write(
    kind: Kind,
    zeros: bool,
    p: u8,
    l: &LockList,
    fcb: &[u8; FCB_SIZE],
    dma: &[u8; DMA_SIZE],
    list: &[u8; LIST_SIZE],
    image: &mut [u8],
    vector: &mut [u8],
) -> Result<(), Refusal>
    requires { (l.now ≡ unpack list.now) × Ready kind (buffers fcb.now dma.now list.now image.old) × (vector.old ≡ vector_of kind image.old) }
    ensures { Did (served kind (Some (write_routine zeros)) p 1 (buffers fcb.now dma.now list.now image.old)) (answer_of result) (buffers fcb.now dma.now list.now image.new) × (vector.new ≡ vector_of kind image.new) }
{
    let f = caller_file(l, p, fcb);
    let o = l.open_of(p, f);
    let r = record_of(fcb);
    write_by(kind, zeros, p, l, o, f, r, fcb, dma, list, image, vector)
}
