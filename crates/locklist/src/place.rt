ghost use Rattle.std.specs.Prelude.{◌≡◌, ◌<◌, length};
ghost use Rattle.rules.specs.Locks.{item_at, item_from, unpack};
ghost use Rattle.locklist.specs.Places.{Unused};

use crate::mark::kind_of;
use directory::name::eleven_from;
use rules::item::Item;
use rules::size::LIST_SIZE;
use words::byte::word_of;
use words::compare::zeros;

// The item that twenty bytes say.
#[tactic(auto, unfolding(rules::specs::Locks::item_from))]
fn item_from(b: &[u8]) -> Item
    requires { length b.now ≡ 20 }
    ensures { result ≡ item_from b.now }
{
    Item {
        kind: kind_of(b[0], b[1]),
        process: b[2],
        name: eleven_from(b, 3),
        mode: b[14],
        number: word_of(b[16], b[17], b[18], b[19]),
    }
}

// The item at a place.
#[tactic(auto, using(crate::proofs::Places::item_as))]
pub fn item_at(list: &[u8; LIST_SIZE], i: usize) -> Item
    requires { i < 64 }
    ensures { result ≡ item_at (unpack list.now) i }
{
    let at = 19 + 20 * i;
    item_from(&list[at..at + 20])
}

// Below how many places all that are used stand: the upper half goes as long as it is zeros.
pub fn used_places(list: &[u8; LIST_SIZE]) -> usize
    ensures { Unused list.now result }
{
    let mut n = 64;
    while 0 < n {
        let half = n / 2;
        let from = 19 + 20 * half;
        let to = 19 + 20 * n;
        if !zeros(&list[from..to]) {
            return n;
        }
        n = half;
    }
    n
}
