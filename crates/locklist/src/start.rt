ghost use Rattle.std.specs.Prelude.{◌≡◌, OnOk};
ghost use Rattle.words.specs.Tests.{◌if◌else◌};
ghost use Rattle.rules.specs.Locks.{bad_start, start};
ghost use Rattle.rules.specs.Refusals.{answer_of};
ghost use Rattle.locklist.specs.Start.{DidStart, MayStart};

use crate::limit::{all_users, is_limit, is_rule};
use crate::pack::pack;
use rules::code::Refusal;
use rules::item::Item;
use rules::kind::{Kind, entries};
use rules::list::LockList;
use rules::size::LIST_SIZE;
use words::byte::array_from;

// Refuses a value that is out of range, and a buffer whose length is wrong.
#[tactic(auto, using(words::proofs::Sets::choices), unfolding(rules::specs::Locks::bad_start))]
fn start_refusal(
    capacity: u32,
    opens: u32,
    locks: u32,
    rule: u32,
    users: &[u8],
    list: &[u8],
) -> Result<(), Refusal>
    ensures told { result ≡ (Err Refusal.BadCall if bad_start capacity opens locks rule users.now list.now else Ok tt) }
    ensures may { OnOk result (MayStart capacity opens locks rule users.now list.now) }
{
    if is_limit(capacity)
        && is_limit(opens)
        && is_limit(locks)
        && is_rule(rule)
        && users.len() == 16
        && all_users(users)
        && list.len() == LIST_SIZE
    {
        Ok(())
    } else {
        Err(Refusal::BadCall)
    }
}

// Starts a list from three numbers, the rule and sixteen users, its 64 places empty and no search begun: 0/0, or 255/13
// and the list unchanged.
pub fn start(
    kind: Kind,
    capacity: u32,
    opens: u32,
    locks: u32,
    rule: u32,
    users: &[u8],
    list: &mut [u8],
) -> Result<(), Refusal>
    ensures { DidStart (start kind capacity opens locks rule users.now list.old) (answer_of result) list.new }
{
    start_refusal(capacity, opens, locks, rule, users, list)?;
    let users = array_from(users, 0);
    let none = entries(kind) as u8;
    let l = LockList {
        capacity: capacity as u8,
        openlimit: opens as u8,
        locklimit: locks as u8,
        users,
        items: [Item::EMPTY; 64],
        positions: [none; 16],
        rule: rule as u8,
    };
    pack(&l, list);
    Ok(())
}
