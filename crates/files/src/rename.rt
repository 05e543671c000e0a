ghost use Rattle.std.specs.Prelude.{◌≡◌, true, Some};
ghost use Rattle.words.specs.Tables.{first_of};
ghost use Rattle.rules.specs.Refusals.{answer_of};
ghost use Rattle.rules.specs.Serves.{Did, buffers};
ghost use Rattle.rules.specs.Call.{Ready, served};
ghost use Rattle.words.specs.Tests.{all};
ghost use Rattle.rules.specs.declared.routine.Routine.TheVariants.{Rename};
ghost use Rattle.rules.specs.Locks.{is_low, unpack};
ghost use Rattle.rules.specs.Codes.{rows23};
ghost use Rattle.files.specs.By.{by23};

use directory::find::{Directory, is_missing};
use directory::name::legal_name;
use locklist::fcb::{caller_file, new_file};
use rules::code::Refusal;
use rules::file::{File, Found};
use rules::kind::Kind;
use rules::list::LockList;
use rules::size::{DMA_SIZE, FCB_SIZE, LIST_SIZE};
use writing::file::rename;

// The first refusal of 23; `y` is what looking up the new name tells.
#[tactic(auto, using(words::proofs::Sets::codes, crate::proofs::Removing::entry_there), unfolding(rules::specs::Codes::rows23, rules::specs::Codes::stops_rename))]
fn rename_refusal(
    directory: &Directory,
    l: &LockList,
    f: File,
    x: Found,
    y: Found,
    fcb: &[u8; FCB_SIZE],
) -> Result<(), Refusal>
    ensures { answer_of result ≡ first_of (rows23 directory.now.kind l.now f x y fcb.now directory.now.image.now) }
{
    if !legal_name(fcb, 1) || !legal_name(fcb, 17) {
        return Err(Refusal::BadName);
    }
    if is_missing(directory.kind, x) {
        return Err(Refusal::NotFound);
    }
    if l.any_open(f) {
        return Err(Refusal::InUse);
    }
    if directory.entry(x.entry).is_read_only() {
        return Err(Refusal::ReadOnly);
    }
    if !is_missing(directory.kind, y) {
        return Err(Refusal::Exists);
    }
    Ok(())
}

// 23 on what was found: decide first, then rename the file's entries.
#[tactic(auto, using(crate::proofs::Removing::renaming))]
fn rename_by(
    kind: Kind,
    l: &LockList,
    f: File,
    new: File,
    fcb: &[u8; FCB_SIZE],
    dma: &[u8; DMA_SIZE],
    list: &[u8; LIST_SIZE],
    image: &mut [u8],
) -> Result<(), Refusal>
    requires { (all (is_low new.name) 11 ≡ true) × Ready kind (buffers fcb.now dma.now list.now image.old) }
    ensures { Did (by23 kind l.now f new (buffers fcb.now dma.now list.now image.old)) (answer_of result) (buffers fcb.now dma.now list.now image.new) }
{
    let directory = Directory {
        kind,
        image: &*image,
    };
    let x = directory.look_up(f);
    let y = directory.look_up(new);
    rename_refusal(&directory, l, f, x, y, fcb)?;
    rename(kind, image, f, new.name);
    Ok(())
}

// 23 on the buffers.
#[tactic(auto, using(crate::proofs::Removing::rename_called))]
pub fn rename_file(
    kind: Kind,
    p: u8,
    l: &LockList,
    fcb: &[u8; FCB_SIZE],
    dma: &[u8; DMA_SIZE],
    list: &[u8; LIST_SIZE],
    image: &mut [u8],
) -> Result<(), Refusal>
    requires { (l.now ≡ unpack list.now) × Ready kind (buffers fcb.now dma.now list.now image.old) }
    ensures { Did (served kind (Some Rename) p 1 (buffers fcb.now dma.now list.now image.old)) (answer_of result) (buffers fcb.now dma.now list.now image.new) }
{
    let f = caller_file(l, p, fcb);
    let new = new_file(l, p, fcb);
    rename_by(kind, l, f, new, fcb, dma, list, image)
}
