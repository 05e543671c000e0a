ghost use Rattle.std.specs.Prelude.{◌≡◌, ◌<◌, eqb, true};
ghost use Rattle.words.specs.Tests.{◌if◌else◌, all};
ghost use Rattle.rules.specs.Drive.{sound_image};
ghost use Rattle.rules.specs.Locks.{unpack, good_empty};
ghost use Rattle.listcheck.specs.Check.{open_alone, lock_alone, item_alone, place_alone_at};

use crate::places::Places;
use index::find::Index;
use rules::item::{A_LOCK, AN_EMPTY, AN_OPEN, Item, MODE_READ_ONLY, MODE_UNLOCKED};
use rules::kind::{entries, is_past};
use words::compare::zeros;

// The rest of an empty place is zeros.
#[tactic(auto, using(words::proofs::Sets::choices), unfolding(rules::specs::Locks::good_empty))]
fn good_empty(it: Item) -> bool
    ensures { result ≡ good_empty it }
{
    let name = it.name;
    it.process == 0 && zeros(&name) && it.mode == 0 && it.number == 0
}

// Each place by itself: against a sound image, whose entries the hints know.
#[derive(Drop)]
pub struct Check<'a> {
    pub index: Index<'a>,
    pub places: &'a Places<'a>,
    ghost sound: { sound_image index.directory.kind index.directory.image.now ≡ true },
}

impl Check<'_> {
    // An open: its mode and record, and its file on the image.
    #[tactic(auto, using(crate::proofs::Checks::found, rules::proofs::Sound::image_long), unfolding(crate::specs::Check::open_alone))]
    fn open_alone(&self, it: Item) -> bool
        ensures { result ≡ open_alone self.now.index.directory.kind self.now.index.directory.image.now (unpack self.now.places.now.list.now).users it }
    {
        let f = self.places.file(it);
        it.mode <= MODE_READ_ONLY
            && it.number == 0
            && self.index.entry_of(f, 0) < entries(self.index.directory.kind)
    }

    // A lock: its mode, and that its record has a block.
    #[tactic(auto, using(crate::proofs::Checks::found, rules::proofs::Sound::image_long), unfolding(crate::specs::Check::lock_alone))]
    fn lock_alone(&self, it: Item) -> bool
        ensures { result ≡ lock_alone self.now.index.directory.kind self.now.index.directory.image.now (unpack self.now.places.now.list.now).users it }
    {
        let f = self.places.file(it);
        it.mode == MODE_UNLOCKED && self.index.block_of(f, it.number as usize) != 0
    }

    // An open or a lock, by its kind.
    #[tactic(auto, using(words::proofs::Sets::choices))]
    fn kind_alone(&self, it: Item) -> bool
        ensures { result ≡ (open_alone self.now.index.directory.kind self.now.index.directory.image.now (unpack self.now.places.now.list.now).users it if eqb it.kind 1 else lock_alone self.now.index.directory.kind self.now.index.directory.image.now (unpack self.now.places.now.list.now).users it) }
    {
        if it.kind == AN_OPEN {
            self.open_alone(it)
        } else {
            self.lock_alone(it)
        }
    }

    // An item, by itself. A name that a sound image has is legal, with high bits zero.
    #[tactic(auto, using(crate::proofs::Legal::judging_items))]
    fn item_alone(&self, it: Item) -> bool
        ensures { result ≡ item_alone self.now.index.directory.kind self.now.index.directory.image.now (unpack self.now.places.now.list.now).users it }
    {
        it.process <= 15
            && !is_past(self.index.directory.kind, it.number as usize)
            && self.kind_alone(it)
    }

    // A place, by itself: empty, or below the capacity with an item.
    #[tactic(auto, using(words::proofs::Sets::choices), unfolding(crate::specs::Check::place_alone, crate::specs::Check::place_alone_at, rules::specs::Locks::unpack))]
    fn place_alone(&self, i: usize) -> bool
        requires { i < 64 }
        ensures { result ≡ place_alone_at self.now.index.directory.kind self.now.index.directory.image.now (unpack self.now.places.now.list.now) i }
    {
        let it = self.places.item(i);
        if it.kind == AN_EMPTY {
            good_empty(it)
        } else {
            i < usize::from(self.places.list[0]) && it.kind <= A_LOCK && self.item_alone(it)
        }
    }

    // Each place, by itself.
    #[tactic(auto, using(crate::proofs::Checks::alones))]
    pub fn places_alone(&self) -> bool
        ensures { result ≡ all (place_alone_at self.now.index.directory.kind self.now.index.directory.image.now (unpack self.now.places.now.list.now)) 64 }
    {
        for i in 0..self.places.end {
            if !self.place_alone(i) {
                return false;
            }
        }
        true
    }
}
