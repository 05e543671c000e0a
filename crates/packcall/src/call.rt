ghost use Rattle.std.specs.Prelude.{◌≡◌, not, length, eqb};
ghost use Rattle.words.specs.Tests.{◌or◌};
ghost use Rattle.words.specs.Tables.{first_of};
ghost use Rattle.rules.specs.Refusals.{answer_of};
ghost use Rattle.packing.specs.Packs.{holds_open, rows_pack, packs, pack};

use drive::check::sound_index;
use index::find::Index;
use listcheck::check::sound_list;
use locklist::unpack::unpack;
use repack::pack::pack_image;
use rules::code::Refusal;
use rules::item::AN_OPEN;
use rules::kind::Kind;
use rules::list::LockList;
use rules::size::LIST_SIZE;

// The list holds an open, of any process.
fn holds_open(l: &LockList) -> bool
    ensures { result ≡ holds_open l.now }
{
    l.items.iter().any(|it| it.kind == AN_OPEN)
}

// The first refusal, where there is one.
#[tactic(auto, using(crate::proofs::Calling::refusing), unfolding(packing::specs::Packs::rows_pack))]
fn refusal(kind: Kind, image: &[u8], list: &[u8], out: &[u8]) -> Result<(), Refusal>
    ensures { answer_of result ≡ first_of (rows_pack kind image.now list.now out.now) }
{
    let Some(list) = list.as_array::<LIST_SIZE>() else {
        return Err(Refusal::BadCall);
    };
    if out.len() != image.len() {
        return Err(Refusal::BadCall);
    }
    let mut hints = [255u8; 256];
    if !sound_index(kind, image, &mut hints) {
        return Err(Refusal::BadImage);
    }
    if !sound_list(list, &Index::of(kind, image, &hints)) {
        return Err(Refusal::BadList);
    }
    if holds_open(&unpack(list)) {
        return Err(Refusal::InUse);
    }
    Ok(())
}

// Packs the book of the image into the second buffer, where no file is open.
#[tactic(auto, using(crate::proofs::Calling::ending))]
pub fn pack(kind: Kind, image: &[u8], list: &[u8], out: &mut [u8]) -> Result<(), Refusal>
    ensures { packs (answer_of result) out.new ≡ pack kind image.now list.now out.old }
{
    refusal(kind, image, list, &*out)?;
    pack_image(kind, image, out);
    Ok(())
}
