ghost use Rattle.std.specs.Prelude.{◌≡◌, ◌*◌, ◌<◌, ◌≤◌, length};
ghost use Rattle.words.specs.Tables.{first_of};
ghost use Rattle.rules.specs.Kinds.{entries, most};
ghost use Rattle.rules.specs.Drive.{blocks};
ghost use Rattle.repair.specs.Salvage.{salvaged, rows_salvage, salvage};
ghost use Rattle.salvage.specs.Passes.{Repaired};
ghost use Rattle.salvage.specs.Refusals.{salvage_code, salvage_answer};

use crate::empty::{keep, note_used};
use crate::maps::clean;
use directory::find::Directory;
use drive::check::good_length;
use rules::kind::{Kind, entries};

// Why an image is not repaired.
#[derive(Clone, Copy)]
pub enum SalvageRefusal {
    // Wrong image length; an unknown kind of drive too.
    WrongLength,
    // Report buffer not of a byte for each entry.
    WrongReport,
}

impl SalvageRefusal {
    // Its number.
    pub fn code(self) -> u32
        ensures { (result ≡ salvage_code self) × (result < 3) }
    {
        match self {
            SalvageRefusal::WrongLength => 1,
            SalvageRefusal::WrongReport => 2,
        }
    }
}

// The answer to a repair: the number of its refusal, or 0.
pub fn salvage_answer(outcome: Result<(), SalvageRefusal>) -> u32
    ensures { result ≡ salvage_answer outcome }
{
    match outcome {
        Ok(()) => 0,
        Err(refusal) => refusal.code(),
    }
}

// The three passes, the report begun before them and told in the last.
#[tactic(auto, using(crate::proofs::Ends::passing))]
fn repair(kind: Kind, image: &mut [u8], report: &mut [u8])
    requires { (32 * entries kind ≤ length image.old) × (blocks kind image.old ≤ most kind) × (length report.old ≡ entries kind) }
    ensures { Repaired kind image.old image.new report.new }
{
    let directory = Directory {
        kind,
        image: &*image,
    };
    note_used(&directory, &mut *report);
    keep(kind, &mut *image);
    clean(kind, image, report);
}

// Why an image is not repaired, if it is not.
#[tactic(auto, using(crate::proofs::Ends::refusing), unfolding(repair::specs::Salvage::rows_salvage))]
fn refusal(kind: Kind, image: &[u8], report: &[u8]) -> Result<(), SalvageRefusal>
    ensures { salvage_answer result ≡ first_of (rows_salvage kind image.now report.now) }
{
    if !good_length(kind, image) {
        return Err(SalvageRefusal::WrongLength);
    }
    if report.len() != entries(kind) {
        return Err(SalvageRefusal::WrongReport);
    }
    Ok(())
}

// The repair of a damaged image. Where it is refused, nothing is changed.
#[tactic(auto, using(crate::proofs::Ends::ending))]
pub fn repair_image(kind: Kind, image: &mut [u8], report: &mut [u8]) -> Result<(), SalvageRefusal>
    ensures { salvaged (salvage_answer result) image.new report.new ≡ salvage kind image.old report.old }
{
    refusal(kind, &*image, &*report)?;
    repair(kind, image, report);
    Ok(())
}
