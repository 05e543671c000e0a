ghost use Rattle.std.specs.Prelude.{◌≡◌, ◌+◌, ◌*◌, ◌<◌, ◌≤◌, length, leb, ltb, eqb};
ghost use Rattle.words.specs.Tests.{◌and◌, ◌if◌else◌, any};
ghost use Rattle.rules.specs.Kinds.{entries};
ghost use Rattle.rules.specs.Drive.{is_entry, entry_of, look_up, missing, free_entry, block_in, block_of};
ghost use Rattle.directory.specs.Looking.{found_to};

use crate::entry::Entry;
use crate::place::map_place;
use rules::file::{File, Found};
use rules::kind::{Kind, entries};

// An entry below `n` is that extent of the file.
pub fn any_entry(image: &[u8], f: File, extent: usize, n: usize) -> bool
    requires { 32 * n ≤ length image.now }
    ensures { result ≡ any (is_entry image.now f extent) n }
{
    (0..n).any(|e| Entry::at(image, e).is_extent(f, extent))
}

// The entry of extent 0 so far: entry `e`, of that extent number, where none was before.
#[tactic(auto, using(words::proofs::Sets::choices))]
fn first_with(first: usize, extent: usize, e: usize, none: usize) -> usize
    ensures { result ≡ (e if eqb extent 0 and leb none first else first) }
{
    if extent == 0 && none <= first {
        e
    } else {
        first
    }
}

// An entry of the file was found, and its extent is at least this one.
#[tactic(auto, using(words::proofs::Sets::choices))]
fn is_highest(x: Found, extent: usize, none: usize) -> bool
    ensures { result ≡ (ltb x.last none and leb extent x.extent) }
{
    x.last < none && extent <= x.extent
}

// What the entries before this one told, and this one; `none` stands for no entry.
#[tactic(auto, using(crate::proofs::Looking::looks))]
fn look_on(entry: &Entry, f: File, x: Found, none: usize) -> Found
    requires { (entry.now.place ≤ none) × (x ≡ found_to none entry.now.image.now f entry.now.place) }
    ensures { result ≡ found_to none entry.now.image.now f (entry.now.place + 1) }
{
    if !entry.is_of(f) {
        return x;
    }
    let extent = entry.extent();
    let first = first_with(x.entry, extent, entry.place, none);
    if is_highest(x, extent, none) {
        return Found { entry: first, ..x };
    }
    Found {
        entry: first,
        extent,
        last: entry.place,
    }
}

// No such file.
#[tactic(auto, using(words::proofs::Sets::wides), unfolding(rules::specs::Drive::missing))]
pub fn is_missing(kind: Kind, x: Found) -> bool
    ensures { result ≡ missing kind x }
{
    entries(kind) <= x.entry
}

// The directory of an image of that kind: its entries stand in front.
#[derive(Clone, Copy)]
pub struct Directory<'a> {
    pub kind: Kind,
    pub image: &'a [u8],
    ghost long: { 32 * entries kind ≤ length image.now },
}

impl<'a> Directory<'a> {
    // Its entry at a place.
    pub fn entry(&self, place: usize) -> Entry<'a>
        requires { place < entries self.now.kind }
        ensures { (result.image.now ≡ self.now.image.now) × (result.place ≡ place) }
    {
        Entry::at(self.image, place)
    }

    // Where that extent of the file stands, the number of entries where it is missing.
    // A number and no Option: the rules (`entry_of`, `lowest`) and every table of codes count a missing entry so.
    pub fn entry_of(&self, f: File, extent: usize) -> usize
        ensures { (result ≡ entry_of self.now.kind self.now.image.now f extent) × (result ≤ entries self.now.kind) }
    {
        let n = entries(self.kind);
        (0..n)
            .find(|&e| self.entry(e).is_extent(f, extent))
            .unwrap_or(n)
    }

    // Looks up a file. In what it tells, too, the number of entries stands for none, as the rules (`look_up`) count it.
    #[tactic(auto, using(crate::proofs::Looking::look_ups))]
    pub fn look_up(&self, f: File) -> Found
        ensures { (result ≡ look_up self.now.kind self.now.image.now f) × (result.entry ≤ entries self.now.kind) × (result.last ≤ entries self.now.kind) }
    {
        let n = entries(self.kind);
        let mut x = Found {
            entry: n,
            extent: 0,
            last: n,
        };
        for e in 0..n {
            x = look_on(&self.entry(e), f, x, n);
        }
        x
    }

    // The lowest empty entry, the number of entries where there is none.
    pub fn free_entry(&self) -> usize
        ensures { (result ≡ free_entry self.now.kind self.now.image.now) × (result ≤ entries self.now.kind) }
    {
        let n = entries(self.kind);
        (0..n).find(|&e| self.entry(e).is_empty()).unwrap_or(n)
    }

    // The block of record `r`, whose extent is at entry `e` (the number of entries: missing); 0 where it has none.
    #[tactic(auto, using(crate::proofs::Blocks::block_none, crate::proofs::Blocks::block_found))]
    pub fn block_in(&self, e: usize, r: usize) -> usize
        ensures { (result ≡ block_in self.now.kind self.now.image.now e r) × (result < 65536) }
    {
        if entries(self.kind) <= e {
            return 0;
        }
        self.entry(e).map_number(self.kind, map_place(self.kind, r))
    }

    // The block of a record of the file, 0 where it has none.
    #[tactic(auto, unfolding(rules::specs::Drive::block_of))]
    pub fn block_of(&self, f: File, r: usize) -> usize
        ensures { (result ≡ block_of self.now.kind self.now.image.now f r) × (result < 65536) }
    {
        self.block_in(self.entry_of(f, r / 128), r)
    }
}
