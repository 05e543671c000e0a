ghost use Rattle.std.specs.Prelude.{◌≡◌, true, ◌+◌, ◌*◌, ◌<◌, ◌≤◌, length, leb, ltb, eqb};
ghost use Rattle.words.specs.Tests.{◌and◌, ◌or◌, all, any};
ghost use Rattle.words.specs.Hints.{Hints};
ghost use Rattle.words.specs.Tables.{first_of};
ghost use Rattle.rules.specs.Kinds.{entries, numbers, most};
ghost use Rattle.rules.specs.Drive.{good_length, blocks, good_numbers, in_range, is_entry, has_first, sound_image, judged, directory_answer, image_check};
ghost use Rattle.index.specs.Slots.{slot_at, in_use};
ghost use Rattle.drive.specs.Marks.{kind_with, Marks, Marked, field_reasons, told_for, Judged};
ghost use Rattle.drive.specs.Walks.{Repeats, Walked, Answered, Surveyed, Marking};

use directory::entry::Entry;
use directory::find::Directory;
use directory::name::legal_name;
use directory::place::blocks_in;
use index::find::{Index, entry_below};
use index::slot::slot_of;
use rules::answer::ImageFault;
use rules::file::File;
use rules::kind::{Kind, Rule, block_size, entries, fewest, last_module, most, numbers};
use words::bits::{is_set, set};
use words::hint::note;

// A length that the kind of drive has.
#[tactic(auto, using(words::proofs::Sets::choices, words::proofs::Sets::wides), unfolding(rules::specs::Drive::good_length))]
pub fn good_length(kind: Kind, image: &[u8]) -> bool
    ensures { result ≡ good_length kind image.now }
{
    if image.len() % block_size(kind) != 0 {
        return false;
    }
    let n = blocks_in(kind, image);
    fewest(kind) <= n && n <= most(kind)
}

// Ex to 31, the module to that of the highest record, the record count to 128.
#[tactic(auto, using(words::proofs::Sets::choices, words::proofs::Sets::wides), unfolding(rules::specs::Drive::good_numbers))]
fn good_numbers(kind: Kind, entry: &Entry) -> bool
    ensures { result ≡ good_numbers kind entry.now.image.now entry.now.place }
{
    let at = 32 * entry.place;
    entry.image[at + 12] <= 31
        && entry.image[at + 14] <= last_module(kind)
        && entry.image[at + 15] <= 128
}

// A block number is 0 or 2 to n - 1. Three tests one after the other: joined in one the image check took a tenth longer.
#[tactic(auto, using(words::proofs::Sets::choices))]
pub fn in_range(b: usize, n: usize) -> bool
    ensures { result ≡ (eqb b 0 or (leb 2 b and ltb b n)) }
{
    if b == 0 {
        return true;
    }
    if b < 2 {
        return false;
    }
    b < n
}

// The kind of drive of that rule: the second, or the first. The loops over an entry's map are built once for each, so that
// the kind is no question inside them.
fn kind_with(large: bool, rule: Rule) -> Kind
    ensures { result ≡ kind_with large rule }
{
    if large {
        Kind::Large(rule)
    } else {
        Kind::Small(rule)
    }
}

// All block numbers of an entry are in range.
#[tactic(auto, using(crate::proofs::Marks::ranging))]
fn numbers_in_range<const LARGE: bool>(rule: Rule, entry: &Entry) -> bool
    ensures { result ≡ all (in_range (kind_with LARGE rule) entry.now.image.now entry.now.place) (numbers (kind_with LARGE rule)) }
{
    let kind = kind_with(LARGE, rule);
    let n = blocks_in(kind, entry.image);
    for k in 0..numbers(kind) {
        if !in_range(entry.map_number(kind, k), n) {
            return false;
        }
    }
    true
}

fn all_in_range(kind: Kind, entry: &Entry) -> bool
    ensures { result ≡ all (in_range kind entry.now.image.now entry.now.place) (numbers kind) }
{
    match kind {
        Kind::Small(rule) => numbers_in_range::<false>(rule, entry),
        Kind::Large(rule) => numbers_in_range::<true>(rule, entry),
    }
}

// Marks the block numbers of an entry, all in range, and refuses a second mark.
#[tactic(auto, using(crate::proofs::Marks::marking))]
fn mark_numbers<const LARGE: bool>(rule: Rule, entry: &Entry, seen: &mut [u8]) -> bool
    requires { (blocks (kind_with LARGE rule) entry.now.image.now ≤ most (kind_with LARGE rule)) × (all (in_range (kind_with LARGE rule) entry.now.image.now entry.now.place) (numbers (kind_with LARGE rule)) ≡ true) × Marks (kind_with LARGE rule) 1 entry.now.image.now entry.now.place 0 seen.old }
    ensures { Marked (kind_with LARGE rule) entry.now.image.now entry.now.place result seen.new }
{
    let kind = kind_with(LARGE, rule);
    for k in 0..numbers(kind) {
        let b = entry.map_number(kind, k);
        if b == 0 {
            continue;
        }
        if is_set(seen, b) {
            return false;
        }
        set(seen, b);
    }
    true
}

fn mark_entry(kind: Kind, entry: &Entry, seen: &mut [u8]) -> bool
    requires { (blocks kind entry.now.image.now ≤ most kind) × (all (in_range kind entry.now.image.now entry.now.place) (numbers kind) ≡ true) × Marks kind 1 entry.now.image.now entry.now.place 0 seen.old }
    ensures { Marked kind entry.now.image.now entry.now.place result seen.new }
{
    match kind {
        Kind::Small(rule) => mark_numbers::<false>(rule, entry, seen),
        Kind::Large(rule) => mark_numbers::<true>(rule, entry, seen),
    }
}

// An entry before this one has its file and extent; the hints, which know the entries before it, then know it too.
#[inline(always)]
pub fn is_repeat(entry: &Entry, hints: &mut [u8; 256]) -> bool
    requires { (entry.now.place < 256) × Hints (slot_at entry.now.image.now) (in_use entry.now.image.now) entry.now.place hints.old }
    ensures { Repeats entry.now.image.now entry.now.place result hints.new }
{
    let f = entry.file();
    let extent = entry.extent();
    let h = slot_of(f, extent);
    let d = entry_below(entry.image, &*hints, h, f, extent, entry.place);
    note(hints, h, entry.place as u8);
    d < entry.place
}

// The user, the name or ex, module and count of an entry are bad: the first that is.
#[tactic(auto, using(crate::proofs::Marks::faults))]
pub fn field_fault(kind: Kind, entry: &Entry) -> Result<(), ImageFault>
    ensures { result ≡ told_for (first_of (field_reasons kind entry.now.image.now entry.now.place)) entry.now.place }
{
    let at = 32 * entry.place;
    if 15 < entry.image[at] {
        return Err(ImageFault::BadUser(entry.place));
    }
    if !legal_name(entry.image, at + 1) {
        return Err(ImageFault::BadName(entry.place));
    }
    if !good_numbers(kind, entry) {
        return Err(ImageFault::BadNumbers(entry.place));
    }
    Ok(())
}

// Why an entry is bad, the blocks seen before it being marked and the entries before it known.
#[inline(always)]
fn judge_entry(
    kind: Kind,
    entry: &Entry,
    seen: &mut [u8],
    hints: &mut [u8; 256],
) -> Result<(), ImageFault>
    requires { (entry.now.place < 256) × (blocks kind entry.now.image.now ≤ most kind) × Marks kind 1 entry.now.image.now entry.now.place 0 seen.old × Hints (slot_at entry.now.image.now) (in_use entry.now.image.now) entry.now.place hints.old }
    ensures { Judged kind entry.now.image.now entry.now.place result seen.new hints.new }
{
    if entry.is_empty() {
        return Ok(());
    }
    field_fault(kind, entry)?;
    if !all_in_range(kind, entry) {
        return Err(ImageFault::BlockOutside(entry.place));
    }
    if !mark_entry(kind, entry, seen) {
        return Err(ImageFault::BlockBefore(entry.place));
    }
    if is_repeat(entry, hints) {
        return Err(ImageFault::ExtentBefore(entry.place));
    }
    Ok(())
}

// The lowest bad entry and why, no block having a mark yet and no entry being known.
#[tactic(auto, using(crate::proofs::Marks::entering))]
fn judge_all(
    directory: &Directory,
    seen: &mut [u8],
    hints: &mut [u8; 256],
) -> Result<(), ImageFault>
    requires { (blocks directory.now.kind directory.now.image.now ≤ most directory.now.kind) × Marks directory.now.kind 1 directory.now.image.now 0 0 seen.old × Hints (slot_at directory.now.image.now) (in_use directory.now.image.now) 0 hints.old }
    ensures { Surveyed (judged directory.now.kind directory.now.image.now) directory.now.kind directory.now.image.now result seen.new hints.new }
{
    // A copy: what is lent would be read anew for each entry.
    let directory = *directory;
    for e in 0..entries(directory.kind) {
        judge_entry(directory.kind, &directory.entry(e), &mut *seen, &mut *hints)?;
    }
    Ok(())
}

// A file has an extent 0.
#[tactic(auto, using(crate::proofs::Walks::begun_by))]
fn has_first(index: &Index, f: File) -> bool
    ensures { result ≡ any (is_entry index.now.directory.image.now f 0) (entries index.now.directory.kind) }
{
    index.entry_of(f, 0) < entries(index.directory.kind)
}

// So has that of entry `e`, which may be empty; one that is extent 0 itself needs no search.
#[inline(always)]
#[tactic(auto, using(words::proofs::Sets::choices, crate::proofs::Begun::begun_self), unfolding(rules::specs::Drive::has_first))]
pub fn is_begun(index: &Index, e: usize) -> bool
    requires { e < entries index.now.directory.kind }
    ensures { result ≡ has_first index.now.directory.kind index.now.directory.image.now e }
{
    let entry = index.directory.entry(e);
    entry.is_empty() || entry.extent() == 0 || has_first(index, entry.file())
}

// The entries one by one, then the files; of a sound directory the hints know all entries and the marks say all blocks.
#[tactic(auto, using(crate::proofs::Walks::answering))]
fn directory_answer(
    directory: &Directory,
    seen: &mut [u8],
    hints: &mut [u8; 256],
) -> Result<(), ImageFault>
    requires { (blocks directory.now.kind directory.now.image.now ≤ most directory.now.kind) × Marks directory.now.kind 1 directory.now.image.now 0 0 seen.old × Hints (slot_at directory.now.image.now) (in_use directory.now.image.now) 0 hints.old }
    ensures { Surveyed (directory_answer directory.now.kind directory.now.image.now) directory.now.kind directory.now.image.now result seen.new hints.new }
{
    judge_all(directory, seen, &mut *hints)?;
    let index = Index {
        directory: *directory,
        hints: &*hints,
    };
    for e in 0..entries(directory.kind) {
        if !is_begun(&index, e) {
            return Err(ImageFault::NoFirst(e));
        }
    }
    Ok(())
}

// The same with marks of its own, a bit for each of the most blocks of the kind.
#[tactic(auto, using(rules::proofs::Sizes::most_fits))]
fn answer_with<const SIZE: usize>(
    directory: &Directory,
    hints: &mut [u8; 256],
) -> Result<(), ImageFault>
    requires { (8 * SIZE ≡ most directory.now.kind) × (blocks directory.now.kind directory.now.image.now ≤ most directory.now.kind) × Hints (slot_at directory.now.image.now) (in_use directory.now.image.now) 0 hints.old }
    ensures { Answered (directory_answer directory.now.kind directory.now.image.now) directory.now.image.now (entries directory.now.kind) result hints.new }
{
    let mut seen = [0u8; SIZE];
    directory_answer(directory, &mut seen, hints)
}

// They are 32 bytes on a drive of the first kind, 512 on one of the second.
#[tactic(auto, unfolding(rules::specs::Kinds::most))]
fn own_answer(directory: &Directory, hints: &mut [u8; 256]) -> Result<(), ImageFault>
    requires { (blocks directory.now.kind directory.now.image.now ≤ most directory.now.kind) × Hints (slot_at directory.now.image.now) (in_use directory.now.image.now) 0 hints.old }
    ensures { Answered (directory_answer directory.now.kind directory.now.image.now) directory.now.image.now (entries directory.now.kind) result hints.new }
{
    match directory.kind {
        Kind::Small(_) => answer_with::<32>(directory, hints),
        Kind::Large(_) => answer_with::<512>(directory, hints),
    }
}

// The image check.
#[tactic(auto, using(words::proofs::Sets::choices, crate::proofs::Walks::walking), unfolding(rules::specs::Drive::image_check))]
pub fn image_check(kind: Kind, image: &[u8]) -> Result<(), ImageFault>
    ensures { result ≡ image_check kind image.now }
{
    if !good_length(kind, image) {
        return Err(ImageFault::WrongLength);
    }
    let mut hints = [255u8; 256];
    own_answer(&Directory { kind, image }, &mut hints)
}

// The image is sound; the hints then know its entries.
#[tactic(auto, using(crate::proofs::Walks::walking))]
pub fn sound_index(kind: Kind, image: &[u8], hints: &mut [u8; 256]) -> bool
    requires { Hints (slot_at image.now) (in_use image.now) 0 hints.old }
    ensures { Walked (sound_image kind image.now) image.now (entries kind) result hints.new }
{
    if !good_length(kind, image) {
        return false;
    }
    own_answer(&Directory { kind, image }, hints).is_ok()
}

// The image is sound; the hints then know its entries, and the marks, none of which was set, say its blocks.
#[tactic(auto, using(crate::proofs::Walks::surveying))]
pub fn sound_marked(kind: Kind, image: &[u8], seen: &mut [u8], hints: &mut [u8; 256]) -> bool
    requires { Marks kind 1 image.now 0 0 seen.old × Hints (slot_at image.now) (in_use image.now) 0 hints.old }
    ensures { Marking kind image.now result seen.new hints.new }
{
    if !good_length(kind, image) {
        return false;
    }
    directory_answer(&Directory { kind, image }, seen, hints).is_ok()
}

// The image is sound.
pub fn sound_image(kind: Kind, image: &[u8]) -> bool
    ensures { result ≡ sound_image kind image.now }
{
    let mut hints = [255u8; 256];
    sound_index(kind, image, &mut hints)
}
