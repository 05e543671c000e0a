ghost use Rattle.std.specs.Prelude.{◌≡◌, ◌+◌, ◌*◌, ◌≤◌, Some};
ghost use Rattle.words.specs.Tables.{first_of};
ghost use Rattle.rules.specs.Refusals.{answer_of};
ghost use Rattle.rules.specs.Serves.{Did, buffers};
ghost use Rattle.rules.specs.Locks.{unpack};
ghost use Rattle.rules.specs.Call.{Ready, served};
ghost use Rattle.rules.specs.declared.routine.Routine.TheVariants.{Size};
ghost use Rattle.rules.specs.Codes.{rows35};
ghost use Rattle.rules.specs.Drive.{entry_byte};
ghost use Rattle.files.specs.By.{by35};

use directory::entry::Entry;
use directory::find::{Directory, is_missing};
use directory::name::legal_name;
use locklist::fcb::caller_file;
use rules::code::Refusal;
use rules::file::{File, Found};
use rules::kind::Kind;
use rules::list::LockList;
use rules::size::{DMA_SIZE, FCB_SIZE, LIST_SIZE};
use words::byte::{put_bytes, three_bytes};

// 128 times the highest extent plus that extent's count, which its entry, the last, holds.
fn size_of(last: &Entry, extent: usize) -> usize
    requires { extent ≤ 2047 }
    ensures { result ≡ 128 * extent + entry_byte last.now.image.now last.now.place 15 }
{
    128 * extent + usize::from(last.image[32 * last.place + 15])
}

// The first refusal of 35.
#[tactic(auto, using(words::proofs::Sets::codes), unfolding(rules::specs::Codes::rows35))]
fn size_refusal(kind: Kind, x: Found, fcb: &[u8; FCB_SIZE]) -> Result<(), Refusal>
    ensures { answer_of result ≡ first_of (rows35 kind x fcb.now) }
{
    if !legal_name(fcb, 1) {
        return Err(Refusal::BadName);
    }
    if is_missing(kind, x) {
        return Err(Refusal::NotFound);
    }
    Ok(())
}

// 35 on the caller's file: decide first, then put the size into the FCB.
#[tactic(auto, using(crate::proofs::Measured::measuring))]
fn size_by(
    kind: Kind,
    f: File,
    fcb: &mut [u8; FCB_SIZE],
    dma: &[u8; DMA_SIZE],
    list: &[u8; LIST_SIZE],
    image: &[u8],
) -> Result<(), Refusal>
    requires { Ready kind (buffers fcb.old dma.now list.now image.now) }
    ensures { Did (by35 kind f (buffers fcb.old dma.now list.now image.now)) (answer_of result) (buffers fcb.new dma.now list.now image.now) }
{
    let directory = Directory { kind, image };
    let x = directory.look_up(f);
    size_refusal(kind, x, fcb)?;
    let last = Entry::at(image, x.last);
    put_bytes(fcb, 33, &three_bytes(size_of(&last, x.extent)));
    Ok(())
}

// 35 on the buffers.
#[tactic(auto, using(crate::proofs::Measured::size_served))]
pub fn file_size(
    kind: Kind,
    p: u8,
    l: &LockList,
    fcb: &mut [u8; FCB_SIZE],
    dma: &[u8; DMA_SIZE],
    list: &[u8; LIST_SIZE],
    image: &[u8],
) -> Result<(), Refusal>
    requires { (l.now ≡ unpack list.now) × Ready kind (buffers fcb.old dma.now list.now image.now) }
    ensures { Did (served kind (Some Size) p 1 (buffers fcb.old dma.now list.now image.now)) (answer_of result) (buffers fcb.new dma.now list.now image.now) }
{
    let f = caller_file(l, p, fcb);
    size_by(kind, f, fcb, dma, list, image)
}
