ghost use Rattle.std.specs.Prelude.{◌≡◌, ◌+◌, ◌<◌};
ghost use Rattle.rules.specs.Look.{may_look, look_block, part_at, look_at, look};

use crate::check::sound_image;
use directory::find::Directory;
use directory::name::{file_from, legal_name};
use directory::place::record_at;
use rules::kind::Kind;

// The image is sound, the user and the name are legal.
#[tactic(auto, using(words::proofs::Sets::choices), unfolding(rules::specs::Look::may_look))]
fn may_look(kind: Kind, user: u32, name: &[u8], image: &[u8]) -> bool
    ensures { result ≡ may_look kind user name.now image.now }
{
    sound_image(kind, image) && user <= 15 && name.len() == 11 && legal_name(name, 0)
}

// The record's block, 0 where it may not be looked at or has none: 0 is the map's own number for no block.
#[tactic(auto, using(crate::proofs::Looking::looks))]
fn look_block(kind: Kind, user: u32, name: &[u8], number: u32, image: &[u8]) -> usize
    ensures { (result ≡ look_block kind user name.now number image.now) × (result < 65536) }
{
    if !may_look(kind, user, name, image) {
        return 0;
    }
    let f = file_from(user as u8, name, 0);
    Directory { kind, image }.block_of(f, number as usize)
}

// Where the part of a record begins that has this block.
#[tactic(auto, using(words::proofs::Sets::choices), unfolding(rules::specs::Look::part_at))]
fn part_at(kind: Kind, block: usize, number: usize) -> usize
    requires { block < 65536 }
    ensures { result ≡ part_at kind block number }
{
    if block == 0 {
        return 0;
    }
    record_at(kind, block, number)
}

// Where the record's 128 bytes begin in the image, 0 where there are none to show.
#[tactic(auto, using(crate::proofs::Looking::look_begins))]
pub fn look_at(kind: Kind, user: u32, name: &[u8], number: u32, image: &[u8]) -> usize
    ensures { result ≡ look_at kind user name.now number image.now }
{
    let block = look_block(kind, user, name, number, image);
    part_at(kind, block, number as usize)
}

// The 128 bytes themselves: a part of the image, or an empty one.
#[tactic(auto, using(crate::proofs::Looking::looking))]
pub fn look<'a>(kind: Kind, user: u32, name: &[u8], number: u32, image: &'a [u8]) -> &'a [u8]
    ensures { result.now ≡ look kind user name.now number image.now }
{
    let at = look_at(kind, user, name, number, image);
    if at == 0 {
        return &image[0..0];
    }
    &image[at..at + 128]
}
