// The functions of the engine, each told the kind of drive by a number. `engine_c` exports them for C hosts.
#![tactic(auto)]

ghost use Rattle.std.specs.Prelude.{◌≡◌};
ghost use Rattle.rules.specs.Kinds.{told_rule, told_kind};
ghost use Rattle.rules.specs.Locks.{rule_in};
ghost use Rattle.rules.specs.Serves.{buffers};
ghost use Rattle.rules.specs.Told.{five_told, singly_five_told, start_told, build_told, check_told, look_told};
ghost use Rattle.rules.specs.Vector.{built, DidFive};
ghost use Rattle.locklist.specs.Start.{DidStart};
ghost use Rattle.repair.specs.Salvage.{salvaged, salvage_told};
ghost use Rattle.packing.specs.Packs.{packs, pack_told};
ghost use Rattle.packing.specs.Same.{same_told};

use calls::answer::answer;
use drive::check::image_check;
use drive::look::look_at;
use drive::vector::build_vector;
use locklist::start::start;
use locklist::unpack::rule_in;
use moving::difference::{Difference, same_answer};
use moving::same::same;
use packcall::call::pack;
use rules::answer::{ImageFault, image_told};
use rules::code::{Refusal, answer_of};
use rules::kind::{told_kind, told_rule};
use salvage::mend::{SalvageRefusal, repair_image, salvage_answer};
use singles::singly::answer_singly;

// A call: the kind of drive, three numbers and five separate buffers in, A + 256 H out.
pub fn mpm_call(
    kind: u32,
    function: u32,
    process: u32,
    count: u32,
    fcb: &mut [u8],
    dma: &mut [u8],
    list: &mut [u8],
    image: &mut [u8],
    vector: &mut [u8],
) -> u32
    ensures { DidFive (five_told (told_kind kind (rule_in list.old)) function process count vector.old (buffers fcb.old dma.old list.old image.old)) result (buffers fcb.new dma.new list.new image.new) vector.new }
{
    let Some(known) = told_kind(kind, rule_in(&*list)) else {
        return Refusal::BadCall.code();
    };
    answer(
        known, true, function, process, count, fcb, dma, list, image, vector,
    )
}

// The same call by the plain engine: 33, 34 and 40 as single calls one after another, the answer that of the last.
pub fn mpm_singly(
    kind: u32,
    function: u32,
    process: u32,
    count: u32,
    fcb: &mut [u8],
    dma: &mut [u8],
    list: &mut [u8],
    image: &mut [u8],
    vector: &mut [u8],
) -> u32
    ensures { DidFive (singly_five_told (told_kind kind (rule_in list.old)) function process count vector.old (buffers fcb.old dma.old list.old image.old)) result (buffers fcb.new dma.new list.new image.new) vector.new }
{
    let Some(known) = told_kind(kind, rule_in(&*list)) else {
        return Refusal::BadCall.code();
    };
    answer_singly(
        known, function, process, count, fcb, dma, list, image, vector,
    )
}

// Start: a fresh list from the kind of drive, three numbers and sixteen users, or 255/13 and the list unchanged.
pub fn mpm_start(
    kind: u32,
    capacity: u32,
    opens: u32,
    locks: u32,
    rule: u32,
    users: &[u8],
    list: &mut [u8],
) -> u32
    ensures { DidStart (start_told (told_kind kind (told_rule rule)) capacity opens locks rule users.now list.old) result list.new }
{
    let Some(known) = told_kind(kind, told_rule(rule)) else {
        return Refusal::BadCall.code();
    };
    answer_of(start(known, capacity, opens, locks, rule, users, list))
}

// The image check: 0 sound, 1 wrong length, 2 to 8 why the directory is unsound; and 256 times the entry that is bad.
pub fn mpm_check(kind: u32, rule: u32, image: &[u8]) -> u32
    ensures { result ≡ check_told (told_kind kind (told_rule rule)) image.now }
{
    let Some(known) = told_kind(kind, told_rule(rule)) else {
        return ImageFault::WrongLength.number();
    };
    image_told(image_check(known, image))
}

// Builds the allocation vector of an image: 32 bytes on a drive of the first kind, 512 on one of the second; or 255/13 for an unknown
// kind or another length, 255/1 for an unsound image, and the vector unchanged.
pub fn mpm_vector(kind: u32, rule: u32, image: &[u8], vector: &mut [u8]) -> u32
    ensures { built result vector.new ≡ build_told (told_kind kind (told_rule rule)) image.now vector.old }
{
    let Some(known) = told_kind(kind, told_rule(rule)) else {
        return Refusal::BadCall.code();
    };
    answer_of(build_vector(known, image, vector))
}

// Look: where the record's 128 bytes begin in the image, or 0 where there are none to show.
pub fn mpm_look(kind: u32, rule: u32, user: u32, name: &[u8], number: u32, image: &[u8]) -> u32
    ensures { result ≡ look_told (told_kind kind (told_rule rule)) user name.now number image.now }
{
    let Some(known) = told_kind(kind, told_rule(rule)) else {
        return 0;
    };
    look_at(known, user, name, number, image) as u32
}

// Salvage of a damaged image: 0 done, 1 wrong length or unknown kind, 2 report buffer not of a byte for each entry. 1 and 2 change
// nothing.
pub fn mpm_salvage(kind: u32, rule: u32, image: &mut [u8], report: &mut [u8]) -> u32
    ensures { salvaged result image.new report.new ≡ salvage_told (told_kind kind (told_rule rule)) image.old report.old }
{
    let Some(known) = told_kind(kind, told_rule(rule)) else {
        return SalvageRefusal::WrongLength.code();
    };
    salvage_answer(repair_image(known, image, report))
}

// Packs the book of the image into a second buffer of its length, while the list holds no open; else the buffer is left.
pub fn mpm_pack(kind: u32, image: &[u8], list: &[u8], packed: &mut [u8]) -> u32
    ensures { packs result packed.new ≡ pack_told (told_kind kind (rule_in list.now)) image.now list.now packed.old }
{
    let Some(known) = told_kind(kind, rule_in(list)) else {
        return Refusal::BadCall.code();
    };
    answer_of(pack(known, image, list, packed))
}

// Two images: 0 they hold the same book, 1 the first is unsound, 2 the second is, 3 they hold different books.
pub fn mpm_same(kind: u32, first: &[u8], second: &[u8]) -> u32
    ensures { result ≡ same_told (told_kind kind (told_rule 0)) first.now second.now }
{
    let Some(known) = told_kind(kind, told_rule(0)) else {
        return Difference::FirstUnsound.code();
    };
    same_answer(same(known, first, second))
}
