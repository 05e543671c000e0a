ghost use Rattle.std.specs.Prelude.{◌≡◌, ◌<◌, get_or};
ghost use Rattle.words.specs.Tests.{all};
ghost use Rattle.rules.specs.Locks.{unpack, keeps_limits};
ghost use Rattle.listcheck.specs.Check.{count_item, at_most};

use crate::places::Places;
use rules::item::{A_LOCK, AN_OPEN, Item};

// No count is above that.
fn all_at_most(counts: [u8; 16], most: u8) -> bool
    ensures { result ≡ all (at_most counts most) 16 }
{
    counts.iter().all(|count| *count <= most)
}

// Counts the item, where it is of that kind and of a process.
#[tactic(auto, using(words::proofs::Sets::choices), unfolding(crate::specs::Check::count_item))]
fn count(counts: &mut [u8; 16], kind: u8, it: Item)
    requires { get_or counts.old it.process 0 < 255 }
    ensures { counts.new ≡ count_item kind it counts.old }
{
    let p = usize::from(it.process);
    if it.kind == kind && p < 16 {
        counts[p] += 1;
    }
}

// Each process keeps both limits: its opens and its locks are counted in one pass, apart, since each has its own limit.
#[tactic(auto, using(crate::proofs::Tallies::limits), unfolding(rules::specs::Locks::unpack))]
pub fn all_keep(places: &Places) -> bool
    ensures { result ≡ all (keeps_limits (unpack places.now.list.now)) 16 }
{
    let mut opens = [0u8; 16];
    let mut locks = [0u8; 16];
    for i in 0..places.end {
        let it = places.item(i);
        count(&mut opens, AN_OPEN, it);
        count(&mut locks, A_LOCK, it);
    }
    all_at_most(opens, places.list[1]) && all_at_most(locks, places.list[2])
}
