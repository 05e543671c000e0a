ghost use Rattle.std.specs.Prelude.{◌≡◌, true, false, ◌+◌, ◌*◌, ◌≤◌, ◌<◌};
ghost use Rattle.rules.specs.Serves.{buffers};
ghost use Rattle.rules.specs.Asks.{record_of};
ghost use Rattle.rules.specs.Several.{serves_run, fcb_at, dma_at, several, singly};
ghost use Rattle.rules.specs.Vector.{vector_of, singly_five, DidFive};
ghost use Rattle.calls.specs.Calls.{DidBeside};
ghost use Rattle.singles.specs.Single.{DidSingle};

use calls::answer::answer;
use calls::refuse::admitted_sized;
use locklist::fcb::record_of;
use rules::code::Refusal;
use rules::kind::Kind;
use rules::size::{DMA_SIZE, FCB_SIZE, LIST_SIZE};
use words::byte::{put_bytes, three_bytes};

// Count serves 33, 34 and 40 too.
#[tactic(auto, using(words::proofs::Sets::choices), unfolding(rules::specs::Several::serves_run))]
fn serves_run(function: u32) -> bool
    ensures { result ≡ serves_run function }
{
    matches!(function, 33 | 34 | 40)
}

// The FCB of the single call for the record at distance `i` from record `r`, the FCB's.
fn fcb_at(fcb: &[u8; FCB_SIZE], r: u32, i: u32) -> [u8; FCB_SIZE]
    requires { (r ≡ record_of fcb.now) × (r + i < 16777216) }
    ensures { result ≡ fcb_at i fcb.now }
{
    let mut own = *fcb;
    put_bytes(&mut own, 33, &three_bytes((r + i) as usize));
    own
}

// Its DMA.
fn dma_at(dma: &[u8; DMA_SIZE], i: u32) -> [u8; DMA_SIZE]
    requires { i < 16 }
    ensures { result ≡ dma_at i dma.now }
{
    let from = 128 * (i as usize);
    let to = from + 128;
    let mut own = *dma;
    put_bytes(&mut own, 0, &dma[from..to]);
    own
}

// The single call for the record at distance `i`, its answer the number that a host gets of it; what it leaves in front of its DMA goes to the record's place.
fn call_one(
    kind: Kind,
    function: u32,
    process: u32,
    r: u32,
    i: u32,
    fcb: &[u8; FCB_SIZE],
    dma: &mut [u8; DMA_SIZE],
    list: &mut [u8; LIST_SIZE],
    image: &mut [u8],
    vector: &mut [u8],
) -> u32
    requires { (serves_run function ≡ true) × (i < 16) × (r ≡ record_of fcb.now) × (r + i < 16777216) × (vector.old ≡ vector_of kind image.old) }
    ensures { DidSingle kind function process i (buffers fcb.now dma.old list.old image.old) result dma.new list.new image.new vector.new }
{
    let mut own_fcb = fcb_at(fcb, r, i);
    let mut own_dma = dma_at(&*dma, i);
    let code = answer(
        kind,
        false,
        function,
        process,
        1,
        &mut own_fcb,
        &mut own_dma,
        list,
        image,
        vector,
    );
    if code != 0 {
        return code;
    }
    put_bytes(dma, 128 * (i as usize), &own_dma[0..128]);
    0
}

// Single calls one after another, to the first refusal.
fn call_each(
    kind: Kind,
    function: u32,
    process: u32,
    count: u32,
    fcb: &[u8; FCB_SIZE],
    dma: &mut [u8; DMA_SIZE],
    list: &mut [u8; LIST_SIZE],
    image: &mut [u8],
    vector: &mut [u8],
) -> u32
    requires { (serves_run function ≡ true) × (count ≤ 16) × (vector.old ≡ vector_of kind image.old) }
    ensures { DidBeside kind (singly (several kind function process count (buffers fcb.now dma.old list.old image.old))) result (buffers fcb.now dma.new list.new image.new) vector.new }
{
    let r = record_of(fcb);
    for i in 0..count {
        let code = call_one(kind, function, process, r, i, fcb, dma, list, image, vector);
        if code != 0 {
            return code;
        }
    }
    0
}

// A call on buffers of their lengths: the general refusals, then single calls.
fn answer_each(
    kind: Kind,
    function: u32,
    process: u32,
    count: u32,
    fcb: &[u8; FCB_SIZE],
    dma: &mut [u8; DMA_SIZE],
    list: &mut [u8; LIST_SIZE],
    image: &mut [u8],
    vector: &mut [u8],
) -> u32
    requires { serves_run function ≡ true }
    ensures { DidFive (singly_five kind function process count vector.old (buffers fcb.now dma.old list.old image.old)) result (buffers fcb.now dma.new list.new image.new) vector.new }
{
    match admitted_sized(
        kind, function, process, count, fcb, &*dma, &*list, &*image, &*vector,
    ) {
        Ok(_) => call_each(
            kind, function, process, count, fcb, dma, list, image, vector,
        ),
        Err(refusal) => refusal.code(),
    }
}

// A call by the plain engine.
pub fn answer_singly(
    kind: Kind,
    function: u32,
    process: u32,
    count: u32,
    fcb: &mut [u8],
    dma: &mut [u8],
    list: &mut [u8],
    image: &mut [u8],
    vector: &mut [u8],
) -> u32
    ensures { DidFive (singly_five kind function process count vector.old (buffers fcb.old dma.old list.old image.old)) result (buffers fcb.new dma.new list.new image.new) vector.new }
{
    if !serves_run(function) {
        return answer(
            kind, false, function, process, count, fcb, dma, list, image, vector,
        );
    }
    let Some(fcb) = fcb.as_mut_array() else {
        return Refusal::BadCall.code();
    };
    let Some(dma) = dma.as_mut_array() else {
        return Refusal::BadCall.code();
    };
    let Some(list) = list.as_mut_array() else {
        return Refusal::BadCall.code();
    };
    answer_each(
        kind, function, process, count, &*fcb, dma, list, image, vector,
    )
}
