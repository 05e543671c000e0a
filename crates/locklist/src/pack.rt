ghost use Rattle.std.specs.Prelude.{◌≡◌, length};
ghost use Rattle.rules.specs.Locks.{pack_item, pack};

use crate::mark::mark_of;
use rules::item::Item;
use rules::list::LockList;
use rules::size::{POSITIONS_AT, RULE_AT};
use words::byte::put_bytes;

// The twenty bytes of an item. Spelled out: with `copy_from_slice` the name goes through memory once more, and packing a
// list takes twice as long.
pub fn item_bytes(it: &Item) -> [u8; 20]
    ensures { result ≡ pack_item it.now }
{
    let mark = mark_of(it.kind);
    let n = it.name;
    let r = it.number.to_le_bytes();
    [
        mark[0], mark[1], it.process, n[0], n[1], n[2], n[3], n[4], n[5], n[6], n[7], n[8], n[9],
        n[10], it.mode, 0, r[0], r[1], r[2], r[3],
    ]
}

// Writes the list's bytes.
#[tactic(auto, using(crate::proofs::Packs::packs))]
pub fn pack(l: &LockList, list: &mut [u8])
    requires { length list.old ≡ 1316 }
    ensures { list.new ≡ pack l.now }
{
    put_bytes(list, 0, &[l.capacity, l.openlimit, l.locklimit]);
    put_bytes(list, 3, &l.users);
    for (i, it) in l.items.iter().enumerate() {
        put_bytes(list, 19 + 20 * i, &item_bytes(it));
    }
    put_bytes(list, POSITIONS_AT, &l.positions);
    list[RULE_AT] = l.rule;
}
