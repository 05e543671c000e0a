ghost use Rattle.std.specs.Prelude.{◌≡◌, ◌≤◌, ◌<◌, [], eqb, IfOk, IfErr};
ghost use Rattle.words.specs.Tables.{first_of};
ghost use Rattle.rules.specs.Refusals.{code_of, answer_of};
ghost use Rattle.rules.specs.Locks.{item_at};
ghost use Rattle.rules.specs.Asks.{last_of};
ghost use Rattle.rules.specs.Codes.{is_file_id, first_lacking, rows_run, rows_lacking, rows_take};

use directory::find::Directory;
use directory::run::entry_at;
use rules::code::Refusal;
use rules::file::File;
use rules::item::MODE_UNLOCKED;
use rules::kind::{Kind, entries, is_past};
use rules::list::LockList;
use rules::size::DMA_SIZE;

// The records that 42 and 43 ask for: the first, and how many.
#[derive(Clone, Copy)]
pub struct Run {
    pub first: u32,
    pub count: u32,
    ghost in_range: { (first < 16777216) × (1 ≤ count) × (count ≤ 16) },
}

impl Run {
    // The last record.
    fn last(self) -> usize
        ensures { result ≡ last_of self.first self.count }
    {
        (self.first + self.count - 1) as usize
    }
}

// DMA bytes 0 and 1 are the File ID of the open at place `o`.
#[tactic(auto, using(words::proofs::Sets::choices), unfolding(rules::specs::Codes::is_file_id))]
fn is_file_id(dma: &[u8; DMA_SIZE], o: usize) -> bool
    ensures { result ≡ is_file_id dma.now o }
{
    usize::from(dma[0]) == o && dma[1] == 0
}

// What 42 and 43 begin with: a refusal, or whether the caller's open is unlocked; in modes 0 and 2 they are success
// with no effect. It is at place `o`, 64 where there is none, as the tables of all calls have it.
#[tactic(auto, using(words::proofs::Sets::codes), unfolding(rules::specs::Codes::rows_run, rules::specs::Locks::is_opened))]
pub fn takes_effect(
    kind: Kind,
    l: &LockList,
    o: usize,
    run: Run,
    dma: &[u8; DMA_SIZE],
) -> Result<bool, Refusal>
    ensures passed { IfOk result (λ unlocked. (0 ≡ first_of (rows_run kind l.now o run.first run.count dma.now [])) × (unlocked ≡ eqb (item_at l.now o).mode 1)) }
    ensures refused { IfErr result (λ why. code_of why ≡ first_of (rows_run kind l.now o run.first run.count dma.now [])) }
{
    if 64 <= o {
        return Err(Refusal::NotOpen);
    }
    if l.mode_at(o) != MODE_UNLOCKED {
        return Ok(false);
    }
    if !is_file_id(dma, o) {
        return Err(Refusal::BadFileId);
    }
    if is_past(kind, run.last()) {
        return Err(Refusal::PastEnd);
    }
    Ok(true)
}

// Refuses a run for its first record that lacks its extent or block.
#[tactic(auto, using(crate::proofs::Locking::lackings))]
pub fn lacking(directory: &Directory, f: File, run: Run) -> Result<(), Refusal>
    ensures { answer_of result ≡ first_of (rows_lacking directory.now.kind directory.now.image.now f run.first run.count (first_lacking directory.now.kind directory.now.image.now f run.first run.count)) }
{
    let r = run.first as usize;
    let mut e = 0;
    for k in 0..run.count as usize {
        e = entry_at(directory, f, r, k, e);
        if entries(directory.kind) <= e {
            return Err(Refusal::NoExtent);
        }
        if directory.block_in(e, r + k) == 0 {
            return Err(Refusal::NoBlock);
        }
    }
    Ok(())
}

// Refuses to take the run's records: another process holds one, or the limit or the list has no room for them.
#[tactic(auto, using(crate::proofs::Locking::takes), unfolding(rules::specs::Codes::rows_take))]
pub fn not_to_take(p: u8, l: &LockList, f: File, run: Run) -> Result<(), Refusal>
    requires { l.now.capacity ≤ 64 }
    ensures { answer_of result ≡ first_of (rows_take p l.now f run.first run.count) }
{
    if l.first_others(p, f, run.first, run.count) < run.count {
        return Err(Refusal::Locked);
    }
    if usize::from(l.locklimit) < l.locks_by(p) + run.count as usize {
        return Err(Refusal::LockLimit);
    }
    if l.free_places() < l.count_new(p, f, run.first, run.count) {
        return Err(Refusal::LockListFull);
    }
    Ok(())
}
