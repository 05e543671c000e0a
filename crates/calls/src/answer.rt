ghost use Rattle.std.specs.Prelude.{◌≡◌};
ghost use Rattle.rules.specs.Serves.{buffers};
ghost use Rattle.rules.specs.Vector.{DidFive};
ghost use Rattle.calls.specs.Calls.{five_by};

use crate::refuse::admitted_sized;
use crate::serve::serve_by;
use locklist::unpack::unpack;
use rules::code::Refusal;
use rules::kind::Kind;
use rules::size::{DMA_SIZE, FCB_SIZE, LIST_SIZE};

// A call on buffers of their lengths: the general refusals, then the routine.
fn answer_sized(
    kind: Kind,
    several: bool,
    function: u32,
    process: u32,
    count: u32,
    fcb: &mut [u8; FCB_SIZE],
    dma: &mut [u8; DMA_SIZE],
    list: &mut [u8; LIST_SIZE],
    image: &mut [u8],
    vector: &mut [u8],
) -> u32
    ensures { DidFive (five_by kind several function process count vector.old (buffers fcb.old dma.old list.old image.old)) result (buffers fcb.new dma.new list.new image.new) vector.new }
{
    let routine = match admitted_sized(
        kind, function, process, count, &*fcb, &*dma, &*list, &*image, &*vector,
    ) {
        Ok(routine) => routine,
        Err(refusal) => return refusal.code(),
    };
    let l = unpack(&*list);
    serve_by(
        kind,
        several,
        routine,
        process as u8,
        count,
        &l,
        fcb,
        dma,
        list,
        image,
        vector,
    )
}

// A call on the buffers. `several`: count serves 33, 34 and 40 too; else they take one record.
pub fn answer(
    kind: Kind,
    several: bool,
    function: u32,
    process: u32,
    count: u32,
    fcb: &mut [u8],
    dma: &mut [u8],
    list: &mut [u8],
    image: &mut [u8],
    vector: &mut [u8],
) -> u32
    ensures { DidFive (five_by kind several function process count vector.old (buffers fcb.old dma.old list.old image.old)) result (buffers fcb.new dma.new list.new image.new) vector.new }
{
    let Some(fcb) = fcb.as_mut_array() else {
        return Refusal::BadCall.code();
    };
    let Some(dma) = dma.as_mut_array() else {
        return Refusal::BadCall.code();
    };
    let Some(list) = list.as_mut_array() else {
        return Refusal::BadCall.code();
    };
    answer_sized(
        kind, several, function, process, count, fcb, dma, list, image, vector,
    )
}
