ghost use Rattle.std.specs.Prelude.{◌≡◌, false, ◌≤◌, ◌<◌};
ghost use Rattle.rules.specs.Serves.{Did, buffers};
ghost use Rattle.rules.specs.Codes.{bad_drive};
ghost use Rattle.rules.specs.Locks.{unpack};
ghost use Rattle.rules.specs.Call.{Ready};
ghost use Rattle.rules.specs.Several.{several, told};
ghost use Rattle.rules.specs.Vector.{vector_of};
ghost use Rattle.several.specs.So.{Asks, write_number, StopsAt};

use crate::refusal::after;
use directory::entry::Entry;
use directory::find::Directory;
use directory::run::entry_at;
use locklist::fcb::{caller_file, record_of};
use records::may::write_stopped;
use records::write::write_one;
use rules::file::File;
use rules::kind::Kind;
use rules::list::LockList;
use rules::size::{DMA_SIZE, FCB_SIZE, LIST_SIZE};

// 34 and 40 on what was found, record by record: the open is at place `o` in that mode, the record at distance `locked` is the first
// that another process has locked.
fn write_run(
    kind: Kind,
    zeros: bool,
    p: u8,
    o: usize,
    mode: u8,
    f: File,
    r: u32,
    count: u32,
    locked: u32,
    fcb: &[u8; FCB_SIZE],
    dma: &[u8; DMA_SIZE],
    list: &[u8; LIST_SIZE],
    image: &mut [u8],
    vector: &mut [u8],
) -> u32
    requires { (r < 16777216) × StopsAt (unpack list.now) p f o r count mode locked × Asks kind (write_number zeros) p count f o r (buffers fcb.now dma.now list.now image.old) × (vector.old ≡ vector_of kind image.old) }
    ensures { Did (told (several kind (write_number zeros) p count (buffers fcb.now dma.now list.now image.old))) result (buffers fcb.now dma.now list.now image.new) × (vector.new ≡ vector_of kind image.new) }
{
    let before = Directory {
        kind,
        image: &*image,
    };
    let first = before.entry_of(f, 0);
    let mut e = 0;
    for i in 0..count {
        let directory = Directory {
            kind,
            image: &*image,
        };
        let here = entry_at(&directory, f, r as usize, i as usize, e);
        let stopped = write_stopped(mode, &Entry::at(&*image, first));
        let from = 128 * (i as usize);
        match write_one(
            kind,
            zeros,
            o,
            stopped,
            i == locked,
            f,
            first,
            here,
            r + i,
            &dma[from..from + 128],
            image,
            vector,
        ) {
            Ok(entry) => e = entry,
            Err(refusal) => return after(refusal.code(), i as usize),
        }
    }
    0
}

// 34 and 40 (`zeros`) on the buffers.
#[tactic(auto, using(crate::proofs::ReadTurns::asks, crate::proofs::WriteTurns::stops_at))]
pub fn write_several(
    kind: Kind,
    zeros: bool,
    p: u8,
    l: &LockList,
    count: u32,
    fcb: &[u8; FCB_SIZE],
    dma: &[u8; DMA_SIZE],
    list: &[u8; LIST_SIZE],
    image: &mut [u8],
    vector: &mut [u8],
) -> u32
    requires { (l.now ≡ unpack list.now) × (p < 16) × (count ≤ 16) × (bad_drive (write_number zeros) fcb.now ≡ false) × Ready kind (buffers fcb.now dma.now list.now image.old) × (vector.old ≡ vector_of kind image.old) }
    ensures { Did (told (several kind (write_number zeros) p count (buffers fcb.now dma.now list.now image.old))) result (buffers fcb.now dma.now list.now image.new) × (vector.new ≡ vector_of kind image.new) }
{
    let f = caller_file(l, p, fcb);
    let o = l.open_of(p, f);
    let r = record_of(fcb);
    let locked = l.first_others(p, f, r, count);
    write_run(
        kind,
        zeros,
        p,
        o,
        l.mode_at(o),
        f,
        r,
        count,
        locked,
        fcb,
        dma,
        list,
        image,
        vector,
    )
}
