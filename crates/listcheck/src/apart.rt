ghost use Rattle.std.specs.Prelude.{◌≡◌, ◌+◌, ◌<◌, not, eqb};
ghost use Rattle.words.specs.Tests.{◌and◌, all};
ghost use Rattle.words.specs.Hints.{Hints};
ghost use Rattle.rules.specs.Locks.{unpack, file_of, same_file, stand_beside, clash, is_apart};
ghost use Rattle.listcheck.specs.Check.{lock_number, item_slot, item_slot_at, is_item};

use crate::places::Places;
use index::slot::slot_of;
use rules::file::File;
use rules::item::{A_LOCK, AN_EMPTY, AN_OPEN, Item, MODE_LOCKED};
use words::hint::{hint, note};

// Two files are the same.
#[tactic(auto, using(crate::proofs::Chains::files), unfolding(rules::specs::Locks::same_file))]
fn same_file(f: File, g: File) -> bool
    ensures { result ≡ same_file f g }
{
    f == g
}

// Opens of two processes, both unlocked or both read-only.
#[tactic(auto, using(words::proofs::Sets::choices), unfolding(rules::specs::Locks::stand_beside))]
fn stand_beside(a: Item, b: Item) -> bool
    ensures { result ≡ stand_beside a b }
{
    a.process != b.process && a.mode == b.mode && a.mode != MODE_LOCKED
}

// Two opens that cannot stand beside each other on one file.
#[tactic(auto, using(words::proofs::Sets::choices))]
fn opens_clash(a: Item, b: Item) -> bool
    ensures { result ≡ (eqb a.kind 1 and eqb b.kind 1 and not (stand_beside a b)) }
{
    a.kind == AN_OPEN && b.kind == AN_OPEN && !stand_beside(a, b)
}

// Two locks of the same record.
#[tactic(auto, using(words::proofs::Sets::choices))]
fn locks_clash(a: Item, b: Item) -> bool
    ensures { result ≡ (eqb a.kind 2 and eqb b.kind 2 and eqb a.number b.number) }
{
    a.kind == A_LOCK && b.kind == A_LOCK && a.number == b.number
}

// What two items of one file may not be.
#[tactic(auto, using(words::proofs::Sets::choices), unfolding(rules::specs::Locks::clash))]
fn clash(a: Item, b: Item) -> bool
    ensures { result ≡ clash a b }
{
    opens_clash(a, b) || locks_clash(a, b)
}

// Two items clash, and are of one file.
#[tactic(auto, using(words::proofs::Sets::choices))]
fn file_clash(places: &Places, a: Item, b: Item) -> bool
    ensures { result ≡ (clash a b and same_file (file_of (unpack places.now.list.now) a) (file_of (unpack places.now.list.now) b)) }
{
    clash(a, b) && same_file(places.file(a), places.file(b))
}

// The record of a lock, 0 for an open.
#[tactic(auto, using(words::proofs::Sets::choices), unfolding(crate::specs::Check::lock_number))]
fn lock_number(it: Item) -> u32
    ensures { result ≡ lock_number it }
{
    if it.kind == A_LOCK { it.number } else { 0 }
}

// The slot of an item; items that clash have the same.
#[tactic(auto, unfolding(crate::specs::Check::item_slot))]
fn item_slot(places: &Places, it: Item) -> usize
    ensures { (result ≡ item_slot (unpack places.now.list.now).users it) × (result < 256) }
{
    slot_of(places.file(it), lock_number(it) as usize)
}

// The item in place `i` clashes with none before it: where the hints know those, they now know it too.
#[tactic(auto, using(crate::proofs::Clashes::apart_ones), unfolding(rules::specs::Locks::clash_at, crate::specs::Check::item_slot_at))]
fn is_apart(places: &Places, i: usize, hints: &mut [u8; 256]) -> bool
    requires within { i < 64 }
    requires known { Hints (item_slot_at (unpack places.now.list.now)) (is_item (unpack places.now.list.now)) i hints.old }
    ensures apart { result ≡ is_apart (unpack places.now.list.now) i }
    ensures known { Hints (item_slot_at (unpack places.now.list.now)) (is_item (unpack places.now.list.now)) (i + 1) hints.new }
{
    let it = places.item(i);
    if it.kind == AN_EMPTY {
        return true;
    }
    let h = item_slot(places, it);
    let from = hint(&*hints, h, i);
    note(hints, h, i as u8);
    for j in from..i {
        if file_clash(places, it, places.item(j)) {
            return false;
        }
    }
    true
}

// No item clashes with one before it.
#[tactic(auto, using(crate::proofs::Clashes::aparts))]
pub fn all_apart(places: &Places) -> bool
    ensures { result ≡ all (is_apart (unpack places.now.list.now)) 64 }
{
    let mut hints = [255u8; 256];
    for i in 0..places.end {
        if !is_apart(places, i, &mut hints) {
            return false;
        }
    }
    true
}
