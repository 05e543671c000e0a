ghost use Rattle.std.specs.Prelude.{◌≡◌, ◌+◌, ◌≤◌, length};
ghost use Rattle.words.specs.Lists.{tab};
ghost use Rattle.words.specs.Bytes.{byte_from};
ghost use Rattle.rules.specs.Locks.{unpack, rule_in};

use crate::place::{item_at, used_places};
use rules::item::Item;
use rules::kind::{Rule, told_rule};
use rules::list::LockList;
use rules::size::{LIST_SIZE, POSITIONS_AT, RULE_AT};
use words::byte::array_from;

// Sixteen bytes from a place on: each process's user, or its next entry.
pub fn sixteen_from(s: &[u8], at: usize) -> [u8; 16]
    requires { at + 16 ≤ length s.now }
    ensures { result ≡ tab (byte_from s.now at) 16 }
{
    array_from(s, at)
}

// The list that 1,316 bytes say: its limits, users, positions and rule, then the places that may be used, one by one.
#[tactic(auto, using(crate::proofs::Packs::placing))]
pub fn unpack(list: &[u8; LIST_SIZE]) -> LockList
    ensures { result ≡ unpack list.now }
{
    let users = array_from(list, 3);
    let positions = array_from(list, POSITIONS_AT);
    let mut l = LockList {
        capacity: list[0],
        openlimit: list[1],
        locklimit: list[2],
        users,
        items: [Item::EMPTY; 64],
        positions,
        rule: list[RULE_AT],
    };
    for i in 0..used_places(list) {
        l.items[i] = item_at(list, i);
    }
    l
}

// The rule that a list chooses, whatever its length and whatever stands in it.
#[tactic(auto, using(crate::proofs::Packs::rule_none), unfolding(rules::specs::Locks::rule_in))]
pub fn rule_in(list: &[u8]) -> Rule
    ensures { result ≡ rule_in list.now }
{
    list.get(RULE_AT)
        .map_or(Rule::Mpm, |number| told_rule(u32::from(*number)))
}
