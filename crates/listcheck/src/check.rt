ghost use Rattle.std.specs.Prelude.{◌≡◌, ◌<◌, true, leb};
ghost use Rattle.words.specs.Tests.{all};
ghost use Rattle.rules.specs.Kinds.{entries};
ghost use Rattle.rules.specs.Drive.{sound_image};
ghost use Rattle.rules.specs.Locks.{unpack, zero_at, is_position, sound_list};
ghost use Rattle.listcheck.specs.Check.{lock_opened, lock_opened_at, good_head, good_tail};

use crate::apart::all_apart;
use crate::limits::all_keep;
use crate::place::Check;
use crate::places::Places;
use index::find::Index;
use locklist::limit::{all_users, is_limit_byte, is_rule_byte};
use locklist::unpack::sixteen_from;
use rules::item::{A_LOCK, Item, MODE_UNLOCKED};
use rules::kind::{Kind, entries};
use rules::size::{LIST_SIZE, POSITIONS_AT, RULE_AT};

// The zero in a place.
#[tactic(auto, using(crate::proofs::Checks::zero_byte), unfolding(rules::specs::Locks::zero_at))]
fn has_zero(places: &Places, i: usize) -> bool
    requires { i < 64 }
    ensures { result ≡ zero_at places.now.list.now i }
{
    places.list[19 + 20 * i + 15] == 0
}

// The zero in each place.
#[tactic(auto, using(crate::proofs::Checks::zeros))]
fn all_zero(places: &Places) -> bool
    ensures { result ≡ all (zero_at places.now.list.now) 64 }
{
    for i in 0..places.end {
        if !has_zero(places, i) {
            return false;
        }
    }
    true
}

// A lock's process has its file open unlocked; of another item no more is asked.
#[tactic(auto, using(crate::proofs::Checks::opened))]
fn lock_opened(places: &Places, it: Item) -> bool
    ensures { result ≡ lock_opened (unpack places.now.list.now) it }
{
    if it.kind != A_LOCK {
        return true;
    }
    let name = it.name;
    for o in 0..places.end {
        let open = places.item(o);
        if open.opens_name(it.process, name) {
            return open.mode == MODE_UNLOCKED;
        }
    }
    false
}

// Each lock's process has that file open unlocked.
#[tactic(auto, using(crate::proofs::Checks::opens), unfolding(crate::specs::Check::lock_opened_at))]
fn locks_opened(places: &Places) -> bool
    ensures { result ≡ all (lock_opened_at (unpack places.now.list.now)) 64 }
{
    for i in 0..places.end {
        if !lock_opened(places, places.item(i)) {
            return false;
        }
    }
    true
}

// Capacity, open limit and lock limit are 1 to 64, each user is 0 to 15.
#[tactic(auto, using(words::proofs::Sets::choices), unfolding(crate::specs::Check::good_head, rules::specs::Locks::unpack))]
fn good_head(places: &Places) -> bool
    ensures { result ≡ good_head (unpack places.now.list.now) }
{
    is_limit_byte(places.list[0])
        && is_limit_byte(places.list[1])
        && is_limit_byte(places.list[2])
        && all_users(&places.users)
}

// A position is an entry's number, or that of none.
fn is_position(kind: Kind, position: u8) -> bool
    ensures { result ≡ leb position (entries kind) }
{
    usize::from(position) <= entries(kind)
}

// Each position is one.
fn all_positions(kind: Kind, positions: [u8; 16]) -> bool
    ensures { result ≡ all (is_position kind positions) 16 }
{
    positions
        .iter()
        .all(|position| is_position(kind, *position))
}

// Each position is one, and the list's rule is.
#[tactic(auto, using(words::proofs::Sets::choices), unfolding(crate::specs::Check::good_tail, rules::specs::Locks::unpack))]
fn good_tail(kind: Kind, places: &Places) -> bool
    ensures { result ≡ good_tail kind (unpack places.now.list.now) }
{
    let list = places.list;
    let positions = sixteen_from(list, POSITIONS_AT);
    all_positions(kind, positions) && is_rule_byte(list[RULE_AT])
}

// The list check: the list, as it stands in its bytes, is sound against a sound image, whose entries the hints know.
#[tactic(auto, using(crate::proofs::Checks::sounds))]
pub fn sound_list(list: &[u8; LIST_SIZE], index: &Index) -> bool
    requires { sound_image index.now.directory.kind index.now.directory.image.now ≡ true }
    ensures { result ≡ sound_list index.now.directory.kind list.now index.now.directory.image.now }
{
    let places = Places::of(list);
    let check = Check {
        index: *index,
        places: &places,
    };
    all_zero(&places)
        && good_head(&places)
        && check.places_alone()
        && locks_opened(&places)
        && all_apart(&places)
        && all_keep(&places)
        && good_tail(index.directory.kind, &places)
}
