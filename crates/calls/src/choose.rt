ghost use Rattle.std.specs.Prelude.{◌≡◌};
ghost use Rattle.rules.specs.Serves.{chosen};

use rules::routine::Routine;

// The call that a function number chooses.
pub fn routine_of(function: u32) -> Option<Routine>
    ensures { result ≡ chosen function }
{
    match function {
        15 => Some(Routine::Open),
        16 => Some(Routine::Close),
        17 => Some(Routine::SearchFirst),
        18 => Some(Routine::SearchNext),
        19 => Some(Routine::Delete),
        22 => Some(Routine::Make),
        23 => Some(Routine::Rename),
        33 => Some(Routine::Read),
        34 => Some(Routine::Write),
        35 => Some(Routine::Size),
        40 => Some(Routine::WriteZeros),
        41 => Some(Routine::TestWrite),
        42 => Some(Routine::Lock),
        43 => Some(Routine::Unlock),
        46 => Some(Routine::FreeSpace),
        143 => Some(Routine::Terminate),
        _ => None,
    }
}
