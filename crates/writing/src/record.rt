ghost use Rattle.std.specs.Prelude.{◌≡◌, ◌+◌, ◌*◌, ◌<◌, ◌≤◌, length};
ghost use Rattle.words.specs.Bytes.{put, le};
ghost use Rattle.rules.specs.Kinds.{block_size, numbers, width};
ghost use Rattle.rules.specs.Drive.{map_at, record_at};
ghost use Rattle.rules.specs.Effects.{new_entry, entered, mapped, counted, cleared, stored, written};

use directory::name::eleven_from;
use directory::place::{block_at, map_place, record_at};
use rules::file::File;
use rules::kind::{Kind, block_size};
use rules::spot::Spot;
use words::byte::put_bytes;

// The 32 bytes of a new entry: the user, the eleven bytes of extent 0 at entry `first`, ex and module of the extent.
#[tactic(auto, unfolding(rules::specs::Effects::new_entry))]
fn new_entry(image: &[u8], first: usize, f: File, extent: usize) -> [u8; 32]
    requires { (32 * first + 32 ≤ length image.now) × (extent < 2048) }
    ensures { result ≡ new_entry image.now first f extent }
{
    let mut entry = [0u8; 32];
    entry[0] = f.user;
    entry[12] = (extent % 32) as u8;
    entry[14] = (extent / 32) as u8;
    entry[1..12].copy_from_slice(&eleven_from(image, 32 * first + 1));
    entry
}

// Makes the entry of a missing extent.
#[tactic(auto, using(words::proofs::Sets::choices, words::proofs::Bytes::put_as), unfolding(rules::specs::Effects::entered))]
pub fn enter(image: &mut [u8], w: Spot, first: usize, f: File, r: usize)
    requires { (32 * first + 32 ≤ length image.old) × (32 * w.entry + 32 ≤ length image.old) × (r < 262144) }
    ensures { image.new ≡ entered w first f r image.old }
{
    if w.fresh {
        let entry = new_entry(image, first, f, r / 128);
        put_bytes(image, 32 * w.entry, &entry);
    }
}

// Stores a block number in place `k` of entry `e`'s map, as many of its bytes as the kind has, low byte first.
#[tactic(auto, unfolding(rules::specs::Kinds::numbers, rules::specs::Kinds::width, words::specs::Bytes::le))]
pub fn put_number(kind: Kind, image: &mut [u8], e: usize, k: usize, block: usize)
    requires { (32 * e + 32 ≤ length image.old) × (k < numbers kind) }
    ensures { image.new ≡ put (map_at kind e k) (le (width kind) block) image.old }
{
    let bytes = block.to_le_bytes();
    match kind {
        Kind::Small(_) => put_bytes(image, 32 * e + 16 + k, &bytes[..1]),
        Kind::Large(_) => put_bytes(image, 32 * e + 16 + 2 * k, &bytes[..2]),
    }
}

// Puts a block that is taken into the extent's map.
#[tactic(auto, using(crate::proofs::Entries::mapped_on, crate::proofs::Entries::mapped_off))]
pub fn map_block(kind: Kind, image: &mut [u8], w: Spot, r: usize)
    requires { 32 * w.entry + 32 ≤ length image.old }
    ensures { image.new ≡ mapped kind w r image.old }
{
    if w.taken {
        put_number(kind, image, w.entry, map_place(kind, r), w.block);
    }
}

// Raises the extent's count to the record's place in its extent plus one.
#[tactic(auto, using(words::proofs::Sets::choices), unfolding(rules::specs::Effects::counted))]
pub fn raise_count(image: &mut [u8], w: Spot, r: usize)
    requires { 32 * w.entry + 32 ≤ length image.old }
    ensures { image.new ≡ counted w r image.old }
{
    let at = 32 * w.entry + 15;
    let n = (r % 128 + 1) as u8;
    if image[at] < n {
        image[at] = n;
    }
}

// Clears a block that 40 has just taken: its part of the image is lent to be filled.
#[tactic(auto, using(crate::proofs::Entries::cleared_on, crate::proofs::Entries::cleared_no, crate::proofs::Entries::cleared_off))]
pub fn clear_block(kind: Kind, image: &mut [u8], zeros: bool, w: Spot)
    requires { (w.block < 65536) × (block_size kind * w.block + block_size kind ≤ length image.old) }
    ensures { image.new ≡ cleared kind zeros w image.old }
{
    if zeros && w.taken {
        let at = block_at(kind, w.block);
        let end = at + block_size(kind);
        image[at..end].fill(0);
    }
}

// Stores the record's 128 bytes.
#[tactic(auto, using(crate::proofs::Entries::stored_as))]
pub fn store_record(kind: Kind, image: &mut [u8], w: Spot, r: usize, v: &[u8])
    requires { (w.block < 65536) × (record_at kind w.block r + 128 ≤ length image.old) × (128 ≤ length v.now) }
    ensures { image.new ≡ stored kind w r v.now image.old }
{
    let at = record_at(kind, w.block, r);
    put_bytes(image, at, &v[..128]);
}

// Writes record `r` of the file, whose extent 0 is at entry `first`. The spot is known to be had.
#[tactic(auto, using(crate::proofs::Entries::written_as))]
pub fn write_record(
    kind: Kind,
    image: &mut [u8],
    zeros: bool,
    w: Spot,
    first: usize,
    f: File,
    r: usize,
    v: &[u8],
)
    requires { (32 * first + 32 ≤ length image.old) × (32 * w.entry + 32 ≤ length image.old) × (w.block < 65536) × (block_size kind * w.block + block_size kind ≤ length image.old) × (record_at kind w.block r + 128 ≤ length image.old) × (r < 262144) × (128 ≤ length v.now) }
    ensures { image.new ≡ written kind zeros w first f r v.now image.old }
{
    enter(image, w, first, f, r);
    map_block(kind, image, w, r);
    raise_count(image, w, r);
    clear_block(kind, image, zeros, w);
    store_record(kind, image, w, r, v);
}
