ghost use Rattle.std.specs.Prelude.{◌≡◌, ◌+◌, ◌*◌, ◌<◌, ◌≤◌, length};
ghost use Rattle.rules.specs.Kinds.{entries, numbers, most};
ghost use Rattle.rules.specs.Drive.{blocks};
ghost use Rattle.drive.specs.Marks.{Marks};
ghost use Rattle.salvage.specs.Passes.{PlaceDone, PlacesDone, EntryDone, EntriesDone};

use directory::entry::Entry;
use directory::place::blocks_in;
use drive::check::in_range;
use rules::kind::{Kind, numbers};
use words::bits::{is_set, set};
use writing::record::put_number;

// Place `k` of entry `e`'s map: zeroes a number that is out of range or marked, and marks one in range. Tells whether it
// zeroed.
#[tactic(auto, using(crate::proofs::Zeroed::placing))]
fn clear_at(kind: Kind, image: &mut [u8], e: usize, k: usize, seen: &mut [u8]) -> bool
    requires { (32 * e + 32 ≤ length image.old) × (k < numbers kind) × (blocks kind image.old ≤ most kind) × Marks kind 1 image.old e k seen.old }
    ensures { PlaceDone kind image.old e k result image.new seen.new }
{
    let b = Entry::at(&*image, e).map_number(kind, k);
    if b == 0 {
        return false;
    }
    let n = blocks_in(kind, &*image);
    if !in_range(b, n) {
        put_number(kind, image, e, k, 0);
        return true;
    }
    let named = is_set(&*seen, b);
    set(seen, b);
    if named {
        put_number(kind, image, e, k, 0);
    }
    named
}

// The same for all of entry `e`'s map: how many were zeroed.
#[tactic(auto, using(crate::proofs::Zeroed::mapping))]
fn clear_map(kind: Kind, image: &mut [u8], e: usize, seen: &mut [u8]) -> u8
    requires { (32 * e + 32 ≤ length image.old) × (blocks kind image.old ≤ most kind) × Marks kind 1 image.old e 0 seen.old }
    ensures { PlacesDone kind image.old e (numbers kind) result image.new seen.new }
{
    let mut zeroed = 0;
    for k in 0..numbers(kind) {
        if clear_at(kind, &mut *image, e, k, &mut *seen) {
            zeroed += 1;
        }
    }
    zeroed
}

// Entry `e` in its turn; an empty one is left alone, and `was` is told of it.
fn clean_at(kind: Kind, image: &mut [u8], e: usize, was: u8, seen: &mut [u8]) -> u8
    requires { (e < entries kind) × (32 * entries kind ≤ length image.old) × (blocks kind image.old ≤ most kind) × Marks kind 1 image.old e 0 seen.old }
    ensures { EntryDone kind was image.old e result image.new seen.new }
{
    if Entry::at(&*image, e).is_empty() {
        return was;
    }
    clear_map(kind, image, e, seen)
}

#[tactic(auto, using(crate::proofs::Zeroed::cleaning))]
fn clean_all(kind: Kind, image: &mut [u8], report: &mut [u8], seen: &mut [u8])
    requires { (32 * entries kind ≤ length image.old) × (blocks kind image.old ≤ most kind) × (length report.old ≡ entries kind) × Marks kind 1 image.old 0 0 seen.old }
    ensures { EntriesDone kind report.old image.old image.new report.new }
{
    for (e, told) in report.iter_mut().enumerate() {
        *told = clean_at(kind, &mut *image, e, *told, &mut *seen);
    }
}

// The same with marks of its own, a bit for each of the most blocks of the kind.
#[tactic(auto, using(rules::proofs::Sizes::most_fits))]
fn clean_with<const SIZE: usize>(kind: Kind, image: &mut [u8], report: &mut [u8])
    requires { (8 * SIZE ≡ most kind) × (32 * entries kind ≤ length image.old) × (blocks kind image.old ≤ most kind) × (length report.old ≡ entries kind) }
    ensures { EntriesDone kind report.old image.old image.new report.new }
{
    let mut seen = [0u8; SIZE];
    clean_all(kind, image, report, &mut seen);
}

// The third pass: zeroes block numbers out of range or naming a block already named, and tells how many of each entry
// in use. The marks are 32 bytes on a drive of the first kind, 512 on one of the second.
#[tactic(auto, unfolding(rules::specs::Kinds::most))]
pub fn clean(kind: Kind, image: &mut [u8], report: &mut [u8])
    requires { (32 * entries kind ≤ length image.old) × (blocks kind image.old ≤ most kind) × (length report.old ≡ entries kind) }
    ensures { EntriesDone kind report.old image.old image.new report.new }
{
    match kind {
        Kind::Small(_) => clean_with::<32>(kind, image, report),
        Kind::Large(_) => clean_with::<512>(kind, image, report),
    }
}
