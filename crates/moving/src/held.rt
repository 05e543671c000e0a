ghost use Rattle.std.specs.Prelude.{◌≡◌, ◌+◌, ◌*◌, ◌<◌, ◌≤◌, length};
ghost use Rattle.words.specs.Tests.{all};
ghost use Rattle.rules.specs.Kinds.{block_size, entries, numbers};
ghost use Rattle.packing.specs.Same.{number_in, same_block, same_held, same_place};
ghost use Rattle.moving.specs.Fits.{Fits};

use directory::entry::Entry;
use directory::find::Directory;
use directory::place::block_at;
use rules::kind::{Kind, block_size, entries, numbers};
use words::compare::same;

// Two blocks with the same bytes.
#[tactic(auto, using(crate::proofs::Fits::blocks_as))]
fn same_block(kind: Kind, first: &[u8], a: usize, second: &[u8], b: usize) -> bool
    requires { (a < 65536) × (b < 65536) × (block_size kind * a + block_size kind ≤ length first.now) × (block_size kind * b + block_size kind ≤ length second.now) }
    ensures { result ≡ same_block kind first.now a second.now b }
{
    let size = block_size(kind);
    let at = block_at(kind, a);
    let bt = block_at(kind, b);
    same(&second[bt..bt + size], &first[at..at + size])
}

// No block in both, or blocks with the same bytes.
#[tactic(auto, using(words::proofs::Sets::choices), unfolding(packing::specs::Same::same_held))]
fn same_held(kind: Kind, first: &[u8], a: usize, second: &[u8], b: usize) -> bool
    requires { (a < 65536) × (b < 65536) × (block_size kind * a + block_size kind ≤ length first.now) × (block_size kind * b + block_size kind ≤ length second.now) }
    ensures { result ≡ same_held kind first.now a second.now b }
{
    if a == 0 {
        b == 0
    } else {
        b != 0 && same_block(kind, first, a, second, b)
    }
}

// The number in place `k` of an entry's map, 0 where there is no such entry.
#[tactic(auto, using(words::proofs::Sets::choices), unfolding(packing::specs::Same::number_in))]
fn number_in(directory: &Directory, e: usize, k: usize) -> usize
    requires { k < numbers directory.now.kind }
    ensures { (result ≡ number_in directory.now.kind directory.now.image.now e k) × (result < 65536) }
{
    if e < entries(directory.kind) {
        directory.entry(e).map_number(directory.kind, k)
    } else {
        0
    }
}

// What place `k` of the one entry and of the other, at `d`, holds.
#[tactic(auto, using(crate::proofs::Fits::placing), unfolding(packing::specs::Same::same_place))]
fn same_place(first: &Entry, second: &Directory, d: usize, k: usize) -> bool
    requires { (first.now.place < entries second.now.kind) × (k < numbers second.now.kind) × Fits second.now.kind first.now.image.now first.now.place × Fits second.now.kind second.now.image.now d }
    ensures { result ≡ same_place second.now.kind first.now.image.now first.now.place second.now.image.now d k }
{
    let kind = second.kind;
    let a = first.map_number(kind, k);
    let b = number_in(second, d, k);
    same_held(kind, first.image, a, second.image, b)
}

// .. at each place.
#[tactic(auto, using(words::proofs::Sets::alls))]
pub fn same_places(first: &Entry, second: &Directory, d: usize) -> bool
    requires { (first.now.place < entries second.now.kind) × Fits second.now.kind first.now.image.now first.now.place × Fits second.now.kind second.now.image.now d }
    ensures { result ≡ all (same_place second.now.kind first.now.image.now first.now.place second.now.image.now d) (numbers second.now.kind) }
{
    for k in 0..numbers(second.kind) {
        if !same_place(first, second, d, k) {
            return false;
        }
    }
    true
}
