ghost use Rattle.std.specs.Prelude.{◌≡◌, false, ◌*◌, ◌<◌, ◌≤◌, length};
ghost use Rattle.words.specs.Tests.{any, lowest};
ghost use Rattle.words.specs.Hints.{Hints};
ghost use Rattle.rules.specs.Kinds.{entries};
ghost use Rattle.rules.specs.Drive.{is_entry, entry_of, block_of};
ghost use Rattle.index.specs.Slots.{slot_of, slot_at, in_use};

use crate::slot::slot_of;
use directory::entry::Entry;
use directory::find::Directory;
use rules::file::File;
use rules::kind::{Kind, entries};
use words::hint::hint;

// The lowest entry below `n` that is that extent of the file, `n` where there is none. None below `from` is.
fn entry_from(image: &[u8], f: File, extent: usize, from: usize, n: usize) -> usize
    requires { (32 * n ≤ length image.now) × (from ≤ n) × (any (is_entry image.now f extent) from ≡ false) }
    ensures { (result ≡ lowest (is_entry image.now f extent) n) × (result ≤ n) }
{
    (from..n)
        .find(|&e| Entry::at(image, e).is_extent(f, extent))
        .unwrap_or(n)
}

// The same where the hints know the entries below `n` and `h` is the slot.
#[inline(never)]
#[tactic(auto, using(crate::proofs::Slots::finding))]
pub fn entry_below(
    image: &[u8],
    hints: &[u8; 256],
    h: usize,
    f: File,
    extent: usize,
    n: usize,
) -> usize
    requires { (32 * n ≤ length image.now) × Hints (slot_at image.now) (in_use image.now) n hints.now × (h ≡ slot_of f extent) × (h < 256) }
    ensures { (result ≡ lowest (is_entry image.now f extent) n) × (result ≤ n) }
{
    entry_from(image, f, extent, hint(hints, h, n), n)
}

// A directory with the hints that know its entries.
#[derive(Clone, Copy)]
pub struct Index<'a> {
    pub directory: Directory<'a>,
    pub hints: &'a [u8; 256],
    ghost known: { Hints (slot_at directory.image.now) (in_use directory.image.now) (entries directory.kind) hints.now },
}

impl<'a> Index<'a> {
    // The one of an image, by hints that know its entries.
    pub fn of(kind: Kind, image: &'a [u8], hints: &'a [u8; 256]) -> Self
        requires { (32 * entries kind ≤ length image.now) × Hints (slot_at image.now) (in_use image.now) (entries kind) hints.now }
        ensures { (result.directory.kind ≡ kind) × (result.directory.image.now ≡ image.now) × (result.hints.now ≡ hints.now) }
    {
        Index {
            directory: Directory { kind, image },
            hints,
        }
    }

    // Where that extent of the file stands, the number of entries where it is missing.
    #[tactic(auto, using(crate::proofs::Slots::finding))]
    pub fn entry_of(&self, f: File, extent: usize) -> usize
        ensures { (result ≡ entry_of self.now.directory.kind self.now.directory.image.now f extent) × (result ≤ entries self.now.directory.kind) }
    {
        let n = entries(self.directory.kind);
        let h = slot_of(f, extent);
        entry_below(self.directory.image, self.hints, h, f, extent, n)
    }

    // The block of a record of the file, 0 where it has none.
    #[tactic(auto, unfolding(rules::specs::Drive::block_of))]
    pub fn block_of(&self, f: File, r: usize) -> usize
        ensures { (result ≡ block_of self.now.directory.kind self.now.directory.image.now f r) × (result < 65536) }
    {
        self.directory.block_in(self.entry_of(f, r / 128), r)
    }
}
