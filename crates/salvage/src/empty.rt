ghost use Rattle.std.specs.Prelude.{◌≡◌, ◌+◌, ◌*◌, ◌<◌, ◌≤◌, length, set};
ghost use Rattle.words.specs.Hints.{Hints};
ghost use Rattle.words.specs.Lists.{tab};
ghost use Rattle.rules.specs.Kinds.{entries};
ghost use Rattle.rules.specs.Drive.{has_first};
ghost use Rattle.index.specs.Slots.{slot_at, in_use};
ghost use Rattle.repair.specs.Salvage.{weeded_at, weeded, begun_at, begun, kept, emptied_told};
ghost use Rattle.salvage.specs.Passes.{MustGo, Known};

use directory::entry::Entry;
use directory::find::Directory;
use drive::check::{field_fault, is_begun, is_repeat};
use index::find::Index;
use rules::kind::{Kind, entries};

// Empties entry `e`.
fn empty_out(image: &mut [u8], e: usize)
    requires { 32 * e + 32 ≤ length image.old }
    ensures { image.new ≡ set image.old (32 * e) 229 }
{
    image[32 * e] = 0xE5;
}

// An entry has a bad field, or an earlier entry has its file and extent. The hints know the entries before it, and it too
// where it stays.
#[tactic(auto, using(crate::proofs::Emptied::choosing))]
fn must_go(kind: Kind, entry: &Entry, hints: &mut [u8; 256]) -> bool
    requires { (entry.now.place < 256) × Hints (slot_at entry.now.image.now) (in_use entry.now.image.now) entry.now.place hints.old }
    ensures { MustGo kind entry.now.image.now entry.now.place result hints.new }
{
    if entry.is_empty() {
        return false;
    }
    if field_fault(kind, entry).is_err() {
        return true;
    }
    is_repeat(entry, hints)
}

#[tactic(auto, using(crate::proofs::Emptied::turning_out))]
fn weed_at(kind: Kind, image: &mut [u8], e: usize, hints: &mut [u8; 256])
    requires { (32 * e + 32 ≤ length image.old) × (e < 256) × Hints (slot_at image.old) (in_use image.old) e hints.old }
    ensures { Known (weeded_at kind e image.old) (e + 1) image.new hints.new }
{
    if must_go(kind, &Entry::at(&*image, e), hints) {
        empty_out(image, e);
    }
}

// The first pass: empties each entry with a bad field, and each that repeats one that was kept.
fn weed(kind: Kind, image: &mut [u8], hints: &mut [u8; 256])
    requires { (32 * entries kind ≤ length image.old) × Hints (slot_at image.old) (in_use image.old) 0 hints.old }
    ensures { Known (weeded kind image.old) (entries kind) image.new hints.new }
{
    for e in 0..entries(kind) {
        weed_at(kind, &mut *image, e, &mut *hints);
    }
}

// The file of entry `e`, which may be empty, has an extent 0.
fn begins(directory: &Directory, e: usize, hints: &[u8; 256]) -> bool
    requires { (e < entries directory.now.kind) × Hints (slot_at directory.now.image.now) (in_use directory.now.image.now) (entries directory.now.kind) hints.now }
    ensures { result ≡ has_first directory.now.kind directory.now.image.now e }
{
    let directory = *directory;
    is_begun(&Index { directory, hints }, e)
}

fn begin_at(kind: Kind, image: &mut [u8], e: usize, hints: &[u8; 256])
    requires { (e < entries kind) × (32 * entries kind ≤ length image.old) × Hints (slot_at image.old) (in_use image.old) (entries kind) hints.now }
    ensures { Known (begun_at kind e image.old) (entries kind) image.new hints.now }
{
    let directory = Directory {
        kind,
        image: &*image,
    };
    if !begins(&directory, e, hints) {
        empty_out(image, e);
    }
}

// The second pass: empties the entries of files lacking extent 0. Fewer entries are in use then, so the hints still know
// all.
fn begin(kind: Kind, image: &mut [u8], hints: &[u8; 256])
    requires { (32 * entries kind ≤ length image.old) × Hints (slot_at image.old) (in_use image.old) (entries kind) hints.now }
    ensures { image.new ≡ begun kind image.old }
{
    for e in 0..entries(kind) {
        begin_at(kind, &mut *image, e, hints);
    }
}

// Both: what stays are the entries of a sound directory.
pub fn keep(kind: Kind, image: &mut [u8])
    requires { 32 * entries kind ≤ length image.old }
    ensures { image.new ≡ kept kind image.old }
{
    let mut hints = [255u8; 256];
    weed(kind, &mut *image, &mut hints);
    begin(kind, image, &hints);
}

#[tactic(auto, using(words::proofs::Sets::choices), unfolding(repair::specs::Salvage::emptied_told))]
fn emptied_told(entry: &Entry) -> u8
    ensures { result ≡ emptied_told entry.now.image.now entry.now.place }
{
    if entry.is_empty() { 0 } else { 255 }
}

// Notes in the report which entries are in use, before any is emptied: 255 stays with those that are.
#[tactic(auto, using(crate::proofs::Emptied::noting_used))]
pub fn note_used(directory: &Directory, report: &mut [u8])
    requires { length report.old ≡ entries directory.now.kind }
    ensures { report.new ≡ tab (emptied_told directory.now.image.now) (entries directory.now.kind) }
{
    for (e, told) in report.iter_mut().enumerate() {
        *told = emptied_told(&directory.entry(e));
    }
}
