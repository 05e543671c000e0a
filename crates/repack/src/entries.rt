ghost use Rattle.std.specs.Prelude.{◌≡◌, false, not, ◌+◌, ◌*◌, ◌<◌, ◌≤◌, length, eqb};
ghost use Rattle.words.specs.Tests.{◌if◌else◌};
ghost use Rattle.rules.specs.Kinds.{entries};
ghost use Rattle.rules.specs.Drive.{is_empty, all_numbers};
ghost use Rattle.repack.specs.Laying.{next_number, LaidEntries, LaidPlaces};

use directory::entry::Entry;
use directory::find::Directory;
use rules::kind::{Kind, entries, numbers};
use words::byte::put_bytes;
use writing::record::put_number;

// The new number of a place that holds `n`: the next one, none where it holds none.
#[tactic(auto, using(words::proofs::Sets::choices))]
fn new_number(n: usize, next: usize) -> usize
    ensures { result ≡ (0 if eqb n 0 else next) }
{
    if n == 0 { 0 } else { next }
}

// Lays the new numbers of a used entry down in entry `to`, `next` being the first, and tells the one after the last.
#[tactic(auto, using(crate::proofs::Laying::mapping))]
fn lay_map(kind: Kind, entry: &Entry, to: usize, next: usize, out: &mut [u8]) -> usize
    requires { (entry.now.place < entries kind) × (is_empty entry.now.image.now entry.now.place ≡ false) × (32 * to + 32 ≤ length out.old) × LaidPlaces kind entry.now.image.now entry.now.place 0 to next out.old }
    ensures { LaidEntries kind entry.now.image.now (entry.now.place + 1) (to + 1) result out.new }
{
    let mut next = next;
    for k in 0..numbers(kind) {
        let n = entry.map_number(kind, k);
        put_number(kind, out, to, k, new_number(n, next));
        next += usize::from(n != 0);
    }
    next
}

// Lays an entry down as entry `to`, where it is used, and tells the next number.
#[tactic(auto, using(crate::proofs::Laying::laying))]
fn lay_entry(kind: Kind, entry: &Entry, to: usize, next: usize, out: &mut [u8]) -> usize
    requires { (entry.now.place < entries kind) × (32 * to + 32 ≤ length out.old) × LaidEntries kind entry.now.image.now entry.now.place to next out.old }
    ensures { LaidEntries kind entry.now.image.now (entry.now.place + 1) (to + (1 if not (is_empty entry.now.image.now entry.now.place) else 0)) result out.new }
{
    if entry.is_empty() {
        return next;
    }
    let from = 32 * entry.place;
    put_bytes(out, 32 * to, &entry.image[from..from + 16]);
    lay_map(kind, entry, to, next, out)
}

// Lays the used entries down in their order, and tells how many they are.
#[tactic(auto, using(crate::proofs::Laying::laying))]
pub fn lay_entries(directory: &Directory, out: &mut [u8]) -> usize
    requires { 32 * entries directory.now.kind ≤ length out.old }
    ensures { (result ≤ entries directory.now.kind) × LaidEntries directory.now.kind directory.now.image.now (entries directory.now.kind) result (next_number directory.now.kind directory.now.image.now (all_numbers directory.now.kind)) out.new }
{
    let mut next = 2;
    let mut to = 0;
    for e in 0..entries(directory.kind) {
        let entry = directory.entry(e);
        next = lay_entry(directory.kind, &entry, to, next, out);
        to += usize::from(!entry.is_empty());
    }
    to
}
