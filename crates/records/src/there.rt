ghost use Rattle.std.specs.Prelude.{◌≡◌};
ghost use Rattle.words.specs.Tables.{first_of};
ghost use Rattle.rules.specs.Codes.{rows_there};
ghost use Rattle.rules.specs.Refusals.{answer_of};

use directory::find::Directory;
use rules::code::Refusal;
use rules::kind::entries;

// Refuses a record that is not there: no such extent (it is at entry `e`, the number of entries: missing), no block.
#[tactic(auto, using(crate::proofs::Reading::there), unfolding(rules::specs::Codes::rows_there))]
pub fn not_there(directory: &Directory, e: usize, r: usize) -> Result<(), Refusal>
    ensures { answer_of result ≡ first_of (rows_there directory.now.kind directory.now.image.now e r) }
{
    if entries(directory.kind) <= e {
        return Err(Refusal::NoExtent);
    }
    if directory.block_in(e, r) == 0 {
        return Err(Refusal::NoBlock);
    }
    Ok(())
}
