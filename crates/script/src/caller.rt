// The engine's callers: each hands the engine what it was given, argument by argument.
ghost use Rattle.std.specs.Prelude.{◌≡◌};
ghost use Rattle.rules.specs.Kinds.{told_rule, told_kind};
ghost use Rattle.rules.specs.Told.{build_told, check_told, look_told};
ghost use Rattle.rules.specs.Vector.{built};
ghost use Rattle.locklist.specs.Start.{DidStart};
ghost use Rattle.script.specs.Records.{rule_number};
ghost use Rattle.script.specs.Run.{first_kind, start_of, call_of, DidCall};

use crate::part;
use crate::record::CALL_SIZE;
use rules::file::File;

// The kind of drive that DISK.IMG is of.
const FIRST_KIND: u32 = 0;

// Start, of what a start record says.
pub fn start_by(s: &[u8], list: &mut [u8]) -> u32
    ensures { DidStart (start_of s.now list.old) result list.new }
{
    let capacity = u32::from(part::first_number(s));
    let opens = u32::from(part::second_number(s));
    let locks = u32::from(part::third_number(s));
    let rule = u32::from(part::rule_number(s));
    engine::mpm_start(
        FIRST_KIND,
        capacity,
        opens,
        locks,
        rule,
        part::users_in(s),
        list,
    )
}

// The call that a call record says, on a list, an image and the vector beside it.
pub fn call_by(s: &[u8; CALL_SIZE], list: &mut [u8], image: &mut [u8], vector: &mut [u8]) -> u32
    ensures { DidCall (call_of s.now list.old image.old vector.old) result list.new image.new vector.new }
{
    let function = u32::from(part::first_number(s));
    let process = u32::from(part::second_number(s));
    let count = u32::from(part::third_number(s));
    let mut fcb = part::fcb_of(s);
    let mut dma = part::dma_of(s);
    engine::mpm_call(
        FIRST_KIND, function, process, count, &mut fcb, &mut dma, list, image, vector,
    )
}

// The vector of an image under the rule of the start record, or the one there where the image is unsound.
#[tactic(auto, using(crate::proofs::Callers::did_build))]
pub fn vector_by(s: &[u8], image: &[u8], vector: &mut [u8]) -> u32
    ensures { built result vector.new ≡ build_told (told_kind first_kind (told_rule (rule_number s.now))) image.now vector.old }
{
    let rule = u32::from(part::rule_number(s));
    engine::mpm_vector(FIRST_KIND, rule, image, vector)
}

// The image check.
pub fn check_by(rule: u32, image: &[u8]) -> u32
    ensures { result ≡ check_told (told_kind first_kind (told_rule rule)) image.now }
{
    engine::mpm_check(FIRST_KIND, rule, image)
}

// Look, at a record of a file.
pub fn look_by(rule: u32, file: File, number: u32, image: &[u8]) -> u32
    ensures { result ≡ look_told (told_kind first_kind (told_rule rule)) file.user file.name number image.now }
{
    let user = u32::from(file.user);
    engine::mpm_look(FIRST_KIND, rule, user, &file.name, number, image)
}
