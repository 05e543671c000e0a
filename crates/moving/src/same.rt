ghost use Rattle.std.specs.Prelude.{◌≡◌, true, ◌+◌, ◌*◌, ◌<◌, ◌≤◌, length};
ghost use Rattle.words.specs.Tests.{all};
ghost use Rattle.words.specs.Tables.{first_of};
ghost use Rattle.rules.specs.Kinds.{entries};
ghost use Rattle.packing.specs.Same.{same_high, same_marks, same_at, same_entry, same_book, rows_same};
ghost use Rattle.moving.specs.Fits.{Fits};
ghost use Rattle.moving.specs.Differences.{same_answer};

use crate::book::Book;
use crate::difference::Difference;
use crate::held::same_places;
use directory::entry::Entry;
use directory::find::Directory;
use rules::kind::{Kind, entries};
use words::test::both;

// Two entries whose eleven bytes have the same high bits. All of them are looked at, which is quicker than to stop where
// they differ.
#[tactic(auto, using(words::proofs::Joined::joins), unfolding(packing::specs::Same::same_high))]
fn same_high(first: &Entry, second: &Entry) -> bool
    ensures { result ≡ all (same_high first.now.image.now (32 * first.now.place + 1) second.now.image.now (32 * second.now.place + 1)) 11 }
{
    let at = 32 * first.place + 1;
    let bt = 32 * second.place + 1;
    let mut same = true;
    for k in 0..11 {
        same = both(
            same,
            second.image[bt + k] / 128 == first.image[at + k] / 128,
        );
    }
    same
}

// The extent 0 stands at entry `d` of the other, with the same attributes.
#[tactic(auto, using(words::proofs::Sets::choices), unfolding(packing::specs::Same::same_marks))]
fn same_marks(first: &Entry, second: &Directory, d: usize) -> bool
    ensures { result ≡ same_marks second.now.kind first.now.image.now first.now.place second.now.image.now d }
{
    d < entries(second.kind) && same_high(first, &second.entry(d))
}

// An entry of the one, and where its file and extent stand in the other.
#[tactic(auto, using(words::proofs::Sets::choices), unfolding(packing::specs::Same::same_at))]
fn same_at(first: &Entry, second: &Directory, d: usize) -> bool
    requires { (first.now.place < entries second.now.kind) × Fits second.now.kind first.now.image.now first.now.place × Fits second.now.kind second.now.image.now d }
    ensures { result ≡ same_at second.now.kind first.now.image.now first.now.place second.now.image.now d }
{
    same_places(first, second, d) && (first.extent() != 0 || same_marks(first, second, d))
}

// The same of an entry that may be empty.
#[tactic(auto, using(crate::proofs::Fits::entering), unfolding(packing::specs::Same::same_entry))]
fn same_entry(first: &Book, second: &Book, e: usize) -> bool
    requires { (e < entries first.now.directory.kind) × (second.now.directory.kind ≡ first.now.directory.kind) }
    ensures { result ≡ same_entry first.now.directory.kind first.now.directory.image.now second.now.directory.image.now e }
{
    let entry = first.directory.entry(e);
    if entry.is_empty() {
        return true;
    }
    let d = second.index().entry_of(entry.file(), entry.extent());
    same_at(&entry, &second.directory, d)
}

// Each used entry of the one against the other.
#[tactic(auto, using(words::proofs::Sets::alls))]
fn same_entries(first: &Book, second: &Book) -> bool
    requires { second.now.directory.kind ≡ first.now.directory.kind }
    ensures { result ≡ all (same_entry first.now.directory.kind first.now.directory.image.now second.now.directory.image.now) (entries first.now.directory.kind) }
{
    for e in 0..entries(first.directory.kind) {
        if !same_entry(first, second, e) {
            return false;
        }
    }
    true
}

// Two sound images hold the same book: each against the other.
#[tactic(auto, using(words::proofs::Sets::choices), unfolding(packing::specs::Same::same_book))]
fn same_book(first: &Book, second: &Book) -> bool
    requires { second.now.directory.kind ≡ first.now.directory.kind }
    ensures { result ≡ same_book first.now.directory.kind first.now.directory.image.now second.now.directory.image.now }
{
    same_entries(first, second) && same_entries(second, first)
}

// Whether two images hold the same book.
#[tactic(auto, using(words::proofs::Sets::codes), unfolding(packing::specs::Same::rows_same))]
pub fn same(kind: Kind, first: &[u8], second: &[u8]) -> Result<(), Difference>
    ensures { same_answer result ≡ first_of (rows_same kind first.now second.now) }
{
    let Some(first) = Book::of(kind, first) else {
        return Err(Difference::FirstUnsound);
    };
    let Some(second) = Book::of(kind, second) else {
        return Err(Difference::SecondUnsound);
    };
    if !same_book(&first, &second) {
        return Err(Difference::Different);
    }
    Ok(())
}
