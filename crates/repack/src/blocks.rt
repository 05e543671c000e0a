ghost use Rattle.std.specs.Prelude.{◌≡◌, true, false, ◌+◌, ◌*◌, ◌<◌, ◌≤◌, length};
ghost use Rattle.words.specs.Bytes.{bytes_from, put};
ghost use Rattle.rules.specs.Kinds.{block_size, entries, numbers};
ghost use Rattle.rules.specs.Drive.{is_empty, all_numbers, sound_image};
ghost use Rattle.repack.specs.Laying.{LaidBlocks};

use directory::entry::Entry;
use directory::find::Directory;
use directory::place::block_at;
use rules::kind::{Kind, block_size, entries, numbers};
use words::byte::put_bytes;

// Copies block `n` of the image to block `b`.
#[tactic(auto, using(crate::proofs::Laying::block_copied))]
fn copy_block(kind: Kind, image: &[u8], n: usize, b: usize, out: &mut [u8])
    requires { (n < 65536) × (b < 65536) × (block_size kind * n + block_size kind ≤ length image.now) × (block_size kind * b + block_size kind ≤ length out.old) }
    ensures { out.new ≡ put (block_size kind * b) (bytes_from image.now (block_size kind * n) (block_size kind)) out.old }
{
    let from = block_at(kind, n);
    let end = from + block_size(kind);
    put_bytes(out, block_at(kind, b), &image[from..end]);
}

// Lays the block in place `k` of a used entry's map down as block `next`, where there is one, and tells the next number.
#[tactic(auto, using(crate::proofs::Laying::copying))]
fn lay_block(kind: Kind, entry: &Entry, k: usize, next: usize, out: &mut [u8]) -> usize
    requires { (sound_image kind entry.now.image.now ≡ true) × (entry.now.place < entries kind) × (k < numbers kind) × (is_empty entry.now.image.now entry.now.place ≡ false) × LaidBlocks kind entry.now.image.now (numbers kind * entry.now.place + k) next out.old }
    ensures { LaidBlocks kind entry.now.image.now (numbers kind * entry.now.place + (k + 1)) result out.new }
{
    let n = entry.map_number(kind, k);
    if n == 0 {
        return next;
    }
    copy_block(kind, entry.image, n, next, out);
    next + 1
}

// Lays the blocks of an entry down, where it is used.
#[tactic(auto, using(crate::proofs::Laying::walking))]
fn lay_map(kind: Kind, entry: &Entry, next: usize, out: &mut [u8]) -> usize
    requires { (sound_image kind entry.now.image.now ≡ true) × (entry.now.place < entries kind) × LaidBlocks kind entry.now.image.now (numbers kind * entry.now.place) next out.old }
    ensures { LaidBlocks kind entry.now.image.now (numbers kind * (entry.now.place + 1)) result out.new }
{
    if entry.is_empty() {
        return next;
    }
    let mut next = next;
    for k in 0..numbers(kind) {
        next = lay_block(kind, entry, k, next, out);
    }
    next
}

// Lays the blocks down in the order in which the walk meets them, and tells the number after the last.
#[tactic(auto, using(crate::proofs::Laying::walking))]
pub fn lay_blocks(directory: &Directory, out: &mut [u8]) -> usize
    requires { (sound_image directory.now.kind directory.now.image.now ≡ true) × LaidBlocks directory.now.kind directory.now.image.now 0 2 out.old }
    ensures { LaidBlocks directory.now.kind directory.now.image.now (all_numbers directory.now.kind) result out.new }
{
    let mut next = 2;
    for e in 0..entries(directory.kind) {
        next = lay_map(directory.kind, &directory.entry(e), next, out);
    }
    next
}
