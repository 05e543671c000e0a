ghost use Rattle.std.specs.Prelude.{◌≡◌, true, false, length, replicate, IfOk};
ghost use Rattle.words.specs.Tables.{first_of};
ghost use Rattle.rules.specs.Serves.{buffers, function_of};
ghost use Rattle.rules.specs.Kinds.{vector_size};
ghost use Rattle.rules.specs.Codes.{bad_drive};
ghost use Rattle.rules.specs.Refusals.{answer_of};
ghost use Rattle.calls.specs.Drives.{reads_drive};
ghost use Rattle.calls.specs.Five.{bad_sizes, rows_within, rows_five};

use crate::choose::routine_of;
use drive::vector::sound_vector;
use index::find::Index;
use listcheck::check::sound_list;
use rules::code::Refusal;
use rules::kind::{Kind, vector_size};
use rules::routine::Routine;
use rules::size::{DMA_SIZE, FCB_SIZE, LIST_SIZE};
use words::compare::same;

// Process over 15, count outside 1 to 16, vector of wrong length.
#[tactic(auto, using(words::proofs::Sets::choices), unfolding(crate::specs::Five::bad_sizes))]
fn bad_sizes(kind: Kind, process: u32, count: u32, vector: &[u8]) -> bool
    ensures { result ≡ bad_sizes kind process count vector.now }
{
    process >= 16 || count < 1 || count > 16 || vector.len() != vector_size(kind)
}

// FCB byte 0 is looked at by all calls but 46 and 143.
#[tactic(auto, unfolding(crate::specs::Drives::reads_drive))]
fn reads_drive(routine: Routine) -> bool
    ensures { result ≡ reads_drive routine }
{
    !matches!(routine, Routine::FreeSpace | Routine::Terminate)
}

// 255/4: FCB byte 0 is neither 0 nor 1.
#[tactic(auto, using(words::proofs::Sets::choices, crate::proofs::Passing::drive_by), unfolding(rules::specs::Codes::bad_drive))]
fn bad_drive(routine: Routine, fcb: &[u8; FCB_SIZE]) -> bool
    ensures { result ≡ bad_drive (function_of routine) fcb.now }
{
    fcb[0] > 1 && reads_drive(routine)
}

// The first refusal that all calls share once the numbers are good; the vector of the image is built in `seen`, all zeros before.
#[tactic(auto, using(words::proofs::Sets::codes, drive::proofs::Taken::vectored_answer), unfolding(crate::specs::Five::rows_within))]
fn refused_in(
    kind: Kind,
    routine: Routine,
    fcb: &[u8; FCB_SIZE],
    list: &[u8; LIST_SIZE],
    image: &[u8],
    vector: &[u8],
    seen: &mut [u8],
) -> Result<(), Refusal>
    requires { (length vector.now ≡ vector_size kind) × (seen.old ≡ replicate (vector_size kind) 0) }
    ensures { answer_of result ≡ first_of (rows_within kind (function_of routine) fcb.now list.now image.now vector.now) }
{
    let mut hints = [255u8; 256];
    if !sound_vector(kind, image, &mut *seen, &mut hints) {
        return Err(Refusal::BadImage);
    }
    if !sound_list(list, &Index::of(kind, image, &hints)) {
        return Err(Refusal::BadList);
    }
    if !same(vector, &*seen) {
        return Err(Refusal::BadVector);
    }
    if bad_drive(routine, fcb) {
        return Err(Refusal::BadDrive);
    }
    Ok(())
}

// The same in an array of its own.
fn refused(
    kind: Kind,
    routine: Routine,
    fcb: &[u8; FCB_SIZE],
    list: &[u8; LIST_SIZE],
    image: &[u8],
    vector: &[u8],
) -> Result<(), Refusal>
    requires { length vector.now ≡ vector_size kind }
    ensures { answer_of result ≡ first_of (rows_within kind (function_of routine) fcb.now list.now image.now vector.now) }
{
    let mut seen = [0u8; 512];
    let n = vector_size(kind);
    refused_in(kind, routine, fcb, list, image, vector, &mut seen[0..n])
}

// The first general refusal of a call on buffers of their lengths, or the routine that the function number chooses.
pub fn admitted_sized(
    kind: Kind,
    function: u32,
    process: u32,
    count: u32,
    fcb: &[u8; FCB_SIZE],
    dma: &[u8; DMA_SIZE],
    list: &[u8; LIST_SIZE],
    image: &[u8],
    vector: &[u8],
) -> Result<Routine, Refusal>
    ensures code { answer_of result ≡ first_of (rows_five kind function process count vector.now (buffers fcb.now dma.now list.now image.now)) }
    ensures routine { IfOk result (λ routine. function ≡ function_of routine) }
{
    let Some(routine) = routine_of(function) else {
        return Err(Refusal::BadCall);
    };
    if bad_sizes(kind, process, count, vector) {
        return Err(Refusal::BadCall);
    }
    refused(kind, routine, fcb, list, image, vector)?;
    Ok(routine)
}

// The same on buffers of any lengths.
pub fn admitted(
    kind: Kind,
    function: u32,
    process: u32,
    count: u32,
    fcb: &[u8],
    dma: &[u8],
    list: &[u8],
    image: &[u8],
    vector: &[u8],
) -> Result<Routine, Refusal>
    ensures code { answer_of result ≡ first_of (rows_five kind function process count vector.now (buffers fcb.now dma.now list.now image.now)) }
    ensures routine { IfOk result (λ routine. function ≡ function_of routine) }
{
    let Some(fcb) = fcb.as_array() else {
        return Err(Refusal::BadCall);
    };
    let Some(dma) = dma.as_array() else {
        return Err(Refusal::BadCall);
    };
    let Some(list) = list.as_array() else {
        return Err(Refusal::BadCall);
    };
    admitted_sized(
        kind, function, process, count, fcb, dma, list, image, vector,
    )
}
