ghost use Rattle.std.specs.Prelude.{◌≡◌, true, ◌-◌, ◌*◌, ◌≤◌, length, replicate};
ghost use Rattle.words.specs.Bytes.{put};
ghost use Rattle.rules.specs.Kinds.{entries};
ghost use Rattle.rules.specs.Drive.{sound_image};
ghost use Rattle.packing.specs.Packed.{packed};
ghost use Rattle.repack.specs.Laying.{LaidBlocks};

use crate::blocks::lay_blocks;
use crate::entries::lay_entries;
use directory::find::Directory;
use directory::place::block_at;
use rules::kind::{Kind, entries};

// Fills the bytes from a place to an end with one byte.
#[tactic(auto, using(crate::proofs::Laying::filled_to))]
fn fill_to(out: &mut [u8], at: usize, end: usize, b: u8)
    requires { (at ≤ end) × (end ≤ length out.old) }
    ensures { out.new ≡ put at (replicate (end - at) b) out.old }
{
    out[at..end].fill(b);
}

// Lays the directory down: the used entries in their order, then empty ones.
fn pack_directory(directory: &Directory, out: &mut [u8])
    requires { (sound_image directory.now.kind directory.now.image.now ≡ true) × (length out.old ≡ length directory.now.image.now) }
    ensures { LaidBlocks directory.now.kind directory.now.image.now 0 2 out.new }
{
    let to = lay_entries(directory, out);
    fill_to(out, 32 * to, 32 * entries(directory.kind), 0xE5);
}

// Lays the blocks down behind it: those in use in the order of the walk, then free ones.
fn pack_blocks(directory: &Directory, out: &mut [u8])
    requires { (sound_image directory.now.kind directory.now.image.now ≡ true) × LaidBlocks directory.now.kind directory.now.image.now 0 2 out.old }
    ensures { out.new ≡ packed directory.now.kind directory.now.image.now }
{
    let size = out.len();
    let next = lay_blocks(directory, out);
    fill_to(out, block_at(directory.kind, next), size, 0);
}

// Packs a sound book into a second buffer of its length.
pub fn pack_image(kind: Kind, image: &[u8], out: &mut [u8])
    requires { (sound_image kind image.now ≡ true) × (length out.old ≡ length image.now) }
    ensures { out.new ≡ packed kind image.now }
{
    let directory = Directory { kind, image };
    pack_directory(&directory, out);
    pack_blocks(&directory, out);
}
