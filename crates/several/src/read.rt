ghost use Rattle.std.specs.Prelude.{◌≡◌, false, ◌≤◌, ◌<◌};
ghost use Rattle.rules.specs.Serves.{Did, buffers};
ghost use Rattle.rules.specs.Codes.{bad_drive};
ghost use Rattle.rules.specs.Locks.{unpack};
ghost use Rattle.rules.specs.Call.{Ready};
ghost use Rattle.rules.specs.Several.{several, told};
ghost use Rattle.several.specs.So.{Asks};

use crate::refusal::after;
use directory::find::Directory;
use directory::run::entry_at;
use locklist::fcb::{caller_file, record_of};
use records::read::read_one;
use rules::file::File;
use rules::kind::Kind;
use rules::list::LockList;
use rules::size::{DMA_SIZE, FCB_SIZE, LIST_SIZE};

// 33 on what was found, record by record.
fn read_run(
    kind: Kind,
    p: u8,
    o: usize,
    f: File,
    r: usize,
    count: usize,
    fcb: &[u8; FCB_SIZE],
    dma: &mut [u8; DMA_SIZE],
    list: &[u8; LIST_SIZE],
    image: &[u8],
) -> u32
    requires { (r < 16777216) × Asks kind 33 p count f o r (buffers fcb.now dma.old list.now image.now) }
    ensures { Did (told (several kind 33 p count (buffers fcb.now dma.old list.now image.now))) result (buffers fcb.now dma.new list.now image.now) }
{
    let directory = Directory { kind, image };
    let mut e = 0;
    for i in 0..count {
        e = entry_at(&directory, f, r, i, e);
        if let Err(refusal) = read_one(&directory, o, e, r + i, dma, 128 * i) {
            return after(refusal.code(), i);
        }
    }
    0
}

// 33 on the buffers.
#[tactic(auto, using(crate::proofs::ReadTurns::asks))]
pub fn read_several(
    kind: Kind,
    p: u8,
    l: &LockList,
    count: u32,
    fcb: &[u8; FCB_SIZE],
    dma: &mut [u8; DMA_SIZE],
    list: &[u8; LIST_SIZE],
    image: &[u8],
) -> u32
    requires { (l.now ≡ unpack list.now) × (p < 16) × (count ≤ 16) × (bad_drive 33 fcb.now ≡ false) × Ready kind (buffers fcb.now dma.old list.now image.now) }
    ensures { Did (told (several kind 33 p count (buffers fcb.now dma.old list.now image.now))) result (buffers fcb.now dma.new list.now image.now) }
{
    let f = caller_file(l, p, fcb);
    let o = l.open_of(p, f);
    let r = record_of(fcb) as usize;
    read_run(kind, p, o, f, r, count as usize, fcb, dma, list, image)
}
