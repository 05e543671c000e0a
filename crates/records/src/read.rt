ghost use Rattle.std.specs.Prelude.{◌≡◌, ◌+◌, ◌*◌, ◌≤◌, ◌<◌, length, Some};
ghost use Rattle.words.specs.Bytes.{put};
ghost use Rattle.words.specs.Tables.{first_of};
ghost use Rattle.rules.specs.Kinds.{block_size};
ghost use Rattle.rules.specs.Serves.{Did, buffers};
ghost use Rattle.rules.specs.Codes.{rows33};
ghost use Rattle.rules.specs.Refusals.{answer_of};
ghost use Rattle.rules.specs.Effects.{contents};
ghost use Rattle.rules.specs.Locks.{unpack};
ghost use Rattle.rules.specs.Call.{Ready, served};
ghost use Rattle.rules.specs.declared.routine.Routine.TheVariants.{Read};
ghost use Rattle.records.specs.By.{Inside, read_at, by33};

use crate::there::not_there;
use directory::find::Directory;
use directory::place::record_at;
use locklist::fcb::{caller_file, record_of};
use rules::code::Refusal;
use rules::file::File;
use rules::kind::{Kind, is_past};
use rules::list::LockList;
use rules::size::{DMA_SIZE, FCB_SIZE, LIST_SIZE};
use words::byte::put_bytes;

// The first refusal of 33. The caller's open is at place `o`, the record's extent at entry `e` (64: none).
#[tactic(auto, using(words::proofs::Sets::codes), unfolding(rules::specs::Codes::rows33, rules::specs::Locks::is_opened))]
fn read_refusal(directory: &Directory, o: usize, e: usize, r: usize) -> Result<(), Refusal>
    ensures { answer_of result ≡ first_of (rows33 directory.now.kind o e r directory.now.image.now) }
{
    if 64 <= o {
        return Err(Refusal::NotOpen);
    }
    if is_past(directory.kind, r) {
        return Err(Refusal::PastEnd);
    }
    not_there(directory, e, r)
}

// Record `r` in its block to the 128 bytes of the DMA from `at` on.
#[tactic(auto, using(crate::proofs::Reading::copied, writing::proofs::Entries::record_lies))]
fn copy_record(kind: Kind, dma: &mut [u8], at: usize, image: &[u8], block: usize, r: usize)
    requires { (at + 128 ≤ length dma.old) × (block < 65536) × (block_size kind * block + block_size kind ≤ length image.now) }
    ensures { dma.new ≡ put at (contents kind image.now block r) dma.old }
{
    let start = record_at(kind, block, r);
    put_bytes(dma, at, &image[start..start + 128]);
}

// One record: decide first, then copy it to the DMA from `at` on.
#[tactic(auto, using(crate::proofs::Reading::reads))]
pub fn read_one(
    directory: &Directory,
    o: usize,
    e: usize,
    r: usize,
    dma: &mut [u8],
    at: usize,
) -> Result<(), Refusal>
    requires { (at + 128 ≤ length dma.old) × Inside directory.now.kind directory.now.image.now e r }
    ensures { (answer_of result ≡ first_of (rows33 directory.now.kind o e r directory.now.image.now)) × (dma.new ≡ read_at directory.now.kind o e r at directory.now.image.now dma.old) }
{
    read_refusal(directory, o, e, r)?;
    let block = directory.block_in(e, r);
    copy_record(directory.kind, dma, at, directory.image, block, r);
    Ok(())
}

// 33 on what was found.
#[tactic(auto, using(crate::proofs::Reading::inside_of, crate::proofs::Reading::read_ended))]
fn read_by(
    kind: Kind,
    o: usize,
    f: File,
    r: usize,
    fcb: &[u8; FCB_SIZE],
    dma: &mut [u8; DMA_SIZE],
    list: &[u8; LIST_SIZE],
    image: &[u8],
) -> Result<(), Refusal>
    requires { Ready kind (buffers fcb.now dma.old list.now image.now) }
    ensures { Did (by33 kind o f r (buffers fcb.now dma.old list.now image.now)) (answer_of result) (buffers fcb.now dma.new list.now image.now) }
{
    let directory = Directory { kind, image };
    let e = directory.entry_of(f, r / 128);
    read_one(&directory, o, e, r, dma, 0)
}

// 33 on the buffers.
#[tactic(auto, using(crate::proofs::Reading::read_called))]
pub fn read_random(
    kind: Kind,
    p: u8,
    l: &LockList,
    fcb: &[u8; FCB_SIZE],
    dma: &mut [u8; DMA_SIZE],
    list: &[u8; LIST_SIZE],
    image: &[u8],
) -> Result<(), Refusal>
    requires { (l.now ≡ unpack list.now) × Ready kind (buffers fcb.now dma.old list.now image.now) }
    ensures { Did (served kind (Some Read) p 1 (buffers fcb.now dma.old list.now image.now)) (answer_of result) (buffers fcb.now dma.new list.now image.now) }
{
    let f = caller_file(l, p, fcb);
    let o = l.open_of(p, f);
    let r = record_of(fcb) as usize;
    read_by(kind, o, f, r, fcb, dma, list, image)
}
