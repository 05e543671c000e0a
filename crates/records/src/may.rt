ghost use Rattle.std.specs.Prelude.{◌≡◌, eqb};
ghost use Rattle.words.specs.Tests.{◌or◌};
ghost use Rattle.words.specs.Tables.{first_of};
ghost use Rattle.rules.specs.Drive.{read_only};
ghost use Rattle.rules.specs.Codes.{rows_may};
ghost use Rattle.rules.specs.Refusals.{answer_of};
ghost use Rattle.records.specs.By.{rows_may_by};

use directory::entry::Entry;
use rules::code::Refusal;
use rules::file::File;
use rules::item::MODE_READ_ONLY;
use rules::kind::{Kind, is_past};
use rules::list::LockList;

// The file, whose extent 0 that entry is, has the read-only attribute, or its open is in mode 2.
#[tactic(auto, using(words::proofs::Sets::choices))]
pub fn write_stopped(mode: u8, entry: &Entry) -> bool
    ensures { result ≡ (read_only entry.now.image.now entry.now.place or eqb mode 2) }
{
    entry.is_read_only() || mode == MODE_READ_ONLY
}

// The first refusal that 34, 40 and 41 share, from what was found. The caller's open is at place `o`, 64
// where there is none, as the tables of all calls have it.
#[tactic(auto, using(words::proofs::Sets::codes), unfolding(crate::specs::By::rows_may_by, rules::specs::Locks::is_opened))]
pub fn may_write_by(
    kind: Kind,
    o: usize,
    stopped: bool,
    r: u32,
    locked: bool,
) -> Result<(), Refusal>
    ensures { answer_of result ≡ first_of (rows_may_by kind o stopped r locked) }
{
    if 64 <= o {
        return Err(Refusal::NotOpen);
    }
    if stopped {
        return Err(Refusal::ReadOnly);
    }
    if is_past(kind, r as usize) {
        return Err(Refusal::PastEnd);
    }
    if locked {
        return Err(Refusal::Locked);
    }
    Ok(())
}

// The same on the list. The file's extent 0 is that entry.
#[tactic(auto, unfolding(crate::specs::By::rows_may_by, rules::specs::Codes::rows_may))]
pub fn may_write(
    kind: Kind,
    p: u8,
    l: &LockList,
    o: usize,
    f: File,
    entry: &Entry,
    r: u32,
) -> Result<(), Refusal>
    ensures { answer_of result ≡ first_of (rows_may kind p l.now o f entry.now.place r entry.now.image.now) }
{
    let stopped = write_stopped(l.mode_at(o), entry);
    let locked = l.locked_by_other(p, f, r);
    may_write_by(kind, o, stopped, r, locked)
}
