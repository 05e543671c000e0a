ghost use Rattle.std.specs.Prelude.{◌≡◌, leb};
ghost use Rattle.rules.specs.Locks.{opens_by, free_place};

use rules::list::LockList;

// The process is at the open limit.
pub fn at_open_limit(l: &LockList, p: u8) -> bool
    ensures { result ≡ leb l.now.openlimit (opens_by l.now p) }
{
    usize::from(l.openlimit) <= l.opens_by(p)
}

// There is no empty place.
pub fn no_place(l: &LockList) -> bool
    ensures { result ≡ leb l.now.capacity (free_place l.now) }
{
    usize::from(l.capacity) <= l.free_place()
}
