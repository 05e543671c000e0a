// What is read from the FCB, and what is put into it.
ghost use Rattle.std.specs.Prelude.{◌≡◌, ◌<◌};
ghost use Rattle.rules.specs.Asks.{caller_file, new_file, record_of, open_mode, make_mode};
ghost use Rattle.rules.specs.Effects.{fcb_mapped, fcb_numbered, fcb_opened};

use directory::entry::Entry;
use directory::name::file_from;
use rules::file::File;
use rules::item::{MODE_LOCKED, MODE_READ_ONLY, MODE_UNLOCKED};
use rules::list::LockList;
use rules::size::FCB_SIZE;
use words::byte::{put_bytes, three_of};

// The file that the FCB names, under the caller's user.
#[tactic(auto, unfolding(rules::specs::Asks::caller_file))]
pub fn caller_file(l: &LockList, p: u8, fcb: &[u8; FCB_SIZE]) -> File
    ensures { result ≡ caller_file p l.now fcb.now }
{
    file_from(l.user_of(p), fcb, 1)
}

// The file that Rename's new name says.
#[tactic(auto, unfolding(rules::specs::Asks::new_file))]
pub fn new_file(l: &LockList, p: u8, fcb: &[u8; FCB_SIZE]) -> File
    ensures { result ≡ new_file p l.now fcb.now }
{
    file_from(l.user_of(p), fcb, 17)
}

// The record number.
#[tactic(auto, unfolding(rules::specs::Asks::record_of))]
pub fn record_of(fcb: &[u8; FCB_SIZE]) -> u32
    ensures { (result ≡ record_of fcb.now) × (result < 16777216) }
{
    three_of(fcb[33], fcb[34], fcb[35])
}

// The mode that Open asks for.
#[tactic(auto, using(words::proofs::Sets::choices), unfolding(rules::specs::Asks::open_mode))]
pub fn open_mode(fcb: &[u8; FCB_SIZE]) -> u8
    ensures { result ≡ open_mode fcb.now }
{
    if 128 <= fcb[6] {
        MODE_READ_ONLY
    } else if 128 <= fcb[5] {
        MODE_UNLOCKED
    } else {
        MODE_LOCKED
    }
}

// The mode that Make asks for.
#[tactic(auto, using(words::proofs::Sets::choices), unfolding(rules::specs::Asks::make_mode))]
pub fn make_mode(fcb: &[u8; FCB_SIZE]) -> u8
    ensures { result ≡ make_mode fcb.now }
{
    if 128 <= fcb[5] {
        MODE_UNLOCKED
    } else {
        MODE_LOCKED
    }
}

// Bytes 12 to 14 become 0, and 15 to 31 the count and map of the extent 0 at that entry.
#[tactic(auto, unfolding(rules::specs::Effects::fcb_mapped))]
fn map_fcb(fcb: &mut [u8; FCB_SIZE], entry: &Entry)
    ensures { fcb.new ≡ fcb_mapped entry.now.image.now entry.now.place fcb.old }
{
    let at = 32 * entry.place + 15;
    put_bytes(fcb, 12, &[0; 3]);
    put_bytes(fcb, 15, &entry.image[at..at + 17]);
}

// In unlocked mode bytes 33 to 35 become the File ID: the open's place.
#[tactic(auto, using(words::proofs::Sets::choices), unfolding(rules::specs::Effects::fcb_numbered))]
fn number_fcb(fcb: &mut [u8; FCB_SIZE], mode: u8, o: usize)
    requires { o < 256 }
    ensures { fcb.new ≡ fcb_numbered mode o fcb.old }
{
    if mode == MODE_UNLOCKED {
        put_bytes(fcb, 33, &[o as u8, 0, 0]);
    }
}

// The FCB after Open and Make.
#[tactic(auto, unfolding(rules::specs::Effects::fcb_opened))]
pub fn set_fcb(fcb: &mut [u8; FCB_SIZE], entry: &Entry, mode: u8, o: usize)
    requires { o < 256 }
    ensures { fcb.new ≡ fcb_opened entry.now.image.now entry.now.place mode o fcb.old }
{
    map_fcb(fcb, entry);
    number_fcb(fcb, mode, o);
}
