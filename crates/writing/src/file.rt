ghost use Rattle.std.specs.Prelude.{◌≡◌, true, ◌+◌, ◌*◌, ◌/◌, ◌<◌, ◌≤◌, length};
ghost use Rattle.words.specs.Tests.{all};
ghost use Rattle.words.specs.Lists.{tab};
ghost use Rattle.rules.specs.Locks.{is_low};
ghost use Rattle.rules.specs.Kinds.{entries};
ghost use Rattle.rules.specs.Effects.{made_entry, made, erased_at, erased, low_changed, renamed_at, renamed};

use directory::entry::Entry;
use rules::file::File;
use rules::kind::{Kind, entries};
use words::byte::put_bytes;

// The 32 bytes of the entry that Make fills: user, name, the rest zeros.
#[tactic(auto, unfolding(rules::specs::Effects::made_entry))]
fn made_entry(f: File) -> [u8; 32]
    ensures { result ≡ made_entry f }
{
    let mut entry = [0u8; 32];
    entry[0] = f.user;
    entry[1..12].copy_from_slice(&f.name);
    entry
}

// Makes the file's extent 0 in entry `e`.
#[tactic(auto, using(words::proofs::Bytes::put_as), unfolding(rules::specs::Effects::made))]
pub fn make_entry(image: &mut [u8], e: usize, f: File)
    requires { 32 * e + 32 ≤ length image.old }
    ensures { image.new ≡ made e f image.old }
{
    put_bytes(image, 32 * e, &made_entry(f));
}

// Empties entry `e` where it is of the file.
#[tactic(auto, using(words::proofs::Sets::choices), unfolding(rules::specs::Effects::erased_at))]
fn erase_at(image: &mut [u8], f: File, e: usize)
    requires { 32 * e + 32 ≤ length image.old }
    ensures { image.new ≡ erased_at f e image.old }
{
    if Entry::at(&*image, e).is_of(f) {
        image[32 * e] = 0xE5;
    }
}

// Empties each entry of the file.
#[tactic(auto, using(words::proofs::Sets::turning_as), unfolding(rules::specs::Effects::erased))]
pub fn erase(kind: Kind, image: &mut [u8], f: File)
    requires { 32 * entries kind ≤ length image.old }
    ensures { image.new ≡ erased kind f image.old }
{
    for e in 0..entries(kind) {
        erase_at(image, f, e);
    }
}

// A byte with other low seven bits.
fn with_low(b: u8, low: u8) -> u8
    requires { low < 128 }
    ensures { result ≡ b / 128 * 128 + low }
{
    b / 128 * 128 + low
}

// The eleven bytes from `at` on, with the name in their low seven bits and their own high bits.
#[tactic(auto, using(crate::proofs::Entries::lowering))]
fn low_changed(image: &[u8], at: usize, name: [u8; 11]) -> [u8; 11]
    requires { (at + 11 ≤ length image.now) × (all (is_low name) 11 ≡ true) }
    ensures { result ≡ tab (low_changed image.now at name) 11 }
{
    let mut bytes = [0u8; 11];
    for (k, byte) in bytes.iter_mut().enumerate() {
        *byte = with_low(image[at + k], name[k]);
    }
    bytes
}

// Renames entry `e` where it is of the file.
#[tactic(auto, using(words::proofs::Sets::choices, words::proofs::Bytes::put_as), unfolding(rules::specs::Effects::renamed_at))]
fn rename_at(image: &mut [u8], f: File, name: [u8; 11], e: usize)
    requires { (32 * e + 32 ≤ length image.old) × (all (is_low name) 11 ≡ true) }
    ensures { image.new ≡ renamed_at f name e image.old }
{
    if Entry::at(&*image, e).is_of(f) {
        let at = 32 * e + 1;
        let bytes = low_changed(image, at, name);
        put_bytes(image, at, &bytes);
    }
}

// Renames each entry of the file.
#[tactic(auto, using(words::proofs::Sets::turning_as), unfolding(rules::specs::Effects::renamed))]
pub fn rename(kind: Kind, image: &mut [u8], f: File, name: [u8; 11])
    requires { (32 * entries kind ≤ length image.old) × (all (is_low name) 11 ≡ true) }
    ensures { image.new ≡ renamed kind f name image.old }
{
    for e in 0..entries(kind) {
        rename_at(image, f, name, e);
    }
}
