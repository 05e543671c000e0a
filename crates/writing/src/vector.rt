ghost use Rattle.std.specs.Prelude.{◌≡◌, true, ◌*◌, ◌<◌, ◌≤◌, length};
ghost use Rattle.words.specs.Tests.{all};
ghost use Rattle.rules.specs.Kinds.{entries, numbers, most, vector_size};
ghost use Rattle.rules.specs.Drive.{blocks, in_range, sound_image};
ghost use Rattle.soundness.specs.Taking.{taken_by, is_block_of};
ghost use Rattle.writing.specs.Clears.{Cleared, without_block, is_block_in, is_block_at};

use directory::entry::Entry;
use rules::file::File;
use rules::kind::{Kind, entries, numbers};
use rules::spot::Spot;
use words::bits::{clear, set};

// Sets the bit of a block that is taken.
#[tactic(auto, using(soundness::proofs::Vectors::taken_on, soundness::proofs::Vectors::taken_off))]
pub fn mark_taken(w: Spot, vector: &mut [u8])
    requires { w.block < 8 * length vector.old }
    ensures { vector.new ≡ taken_by w vector.old }
{
    if w.taken {
        set(vector, w.block);
    }
}

// Clears the bit of a block, 0 standing for none.
#[tactic(auto, using(crate::proofs::Releasing::without_one, crate::proofs::Releasing::without_none))]
fn release_block(block: usize, vector: &mut [u8])
    requires { block < 8 * length vector.old }
    ensures { vector.new ≡ without_block block vector.old }
{
    if block != 0 {
        clear(vector, block);
    }
}

// Clears the bits of the blocks in an entry's map.
#[tactic(auto, using(crate::proofs::Releasing::in_all))]
fn release_entry(kind: Kind, entry: &Entry, vector: &mut [u8])
    requires { (all (in_range kind entry.now.image.now entry.now.place) (numbers kind) ≡ true) × (blocks kind entry.now.image.now ≤ most kind) × (length vector.old ≡ vector_size kind) }
    ensures { Cleared (most kind) (is_block_in kind entry.now.image.now entry.now.place (numbers kind)) vector.old vector.new }
{
    for k in 0..numbers(kind) {
        release_block(entry.map_number(kind, k), vector);
    }
}

// .. where that entry is of the file
#[tactic(auto, using(rules::proofs::Sound::entry_inside, crate::proofs::Releasing::own_range, crate::proofs::Releasing::few_blocks))]
fn release_at(kind: Kind, image: &[u8], f: File, e: usize, vector: &mut [u8])
    requires { (sound_image kind image.now ≡ true) × (e < entries kind) × (length vector.old ≡ vector_size kind) }
    ensures { Cleared (most kind) (is_block_at kind image.now f e) vector.old vector.new }
{
    let entry = Entry::at(image, e);
    if entry.is_of(f) {
        release_entry(kind, &entry, vector);
    }
}

// Clears the bits of all blocks of the file, whose entries still stand.
#[tactic(auto, using(crate::proofs::Releasing::cleared_long, crate::proofs::Releasing::of_all))]
pub fn release(kind: Kind, image: &[u8], f: File, vector: &mut [u8])
    requires { (sound_image kind image.now ≡ true) × (length vector.old ≡ vector_size kind) }
    ensures { Cleared (most kind) (is_block_of kind image.now f (entries kind)) vector.old vector.new }
{
    for e in 0..entries(kind) {
        release_at(kind, image, f, e, vector);
    }
}
