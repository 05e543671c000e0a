ghost use Rattle.std.specs.Prelude.{◌≡◌, ◌+◌, ◌≤◌, length};
ghost use Rattle.words.specs.Tests.{all};
ghost use Rattle.words.specs.Lists.{tab};
ghost use Rattle.words.specs.Bytes.{byte_from, low_from};
ghost use Rattle.rules.specs.Drive.{legal_byte, legal_at, legal_name, is_named, file_from};

use rules::file::File;
use std::array;
use words::byte::array_from;
use words::test::both;

// In the low seven bits a value 32 to 126 other than "?".
#[tactic(auto, using(words::proofs::Sets::choices), unfolding(rules::specs::Drive::legal_byte))]
fn legal_byte(b: u8) -> bool
    ensures { result ≡ legal_byte b }
{
    let low = b % 128;
    (32..=126).contains(&low) && low != b'?'
}

#[tactic(auto, using(words::proofs::Joined::joins), unfolding(rules::specs::Drive::legal_at))]
fn legal_bytes(s: &[u8], at: usize) -> bool
    requires { at + 11 ≤ length s.now }
    ensures { result ≡ all (legal_at s.now at) 11 }
{
    let mut good = true;
    for k in 0..11 {
        good = both(good, legal_byte(s[at + k]));
    }
    good
}

// The eleven bytes from `at` on are a legal name.
#[tactic(auto, using(words::proofs::Sets::choices), unfolding(rules::specs::Drive::legal_name))]
pub fn legal_name(s: &[u8], at: usize) -> bool
    requires { at + 11 ≤ length s.now }
    ensures { result ≡ legal_name s.now at }
{
    s[at] % 128 != b' ' && legal_bytes(s, at)
}

// The eleven bytes from `at` on are that name; high bits take no part.
#[tactic(auto, using(words::proofs::Joined::joins), unfolding(rules::specs::Drive::same_low, rules::specs::Drive::is_named))]
pub fn is_named(s: &[u8], at: usize, name: [u8; 11]) -> bool
    requires { at + 11 ≤ length s.now }
    ensures { result ≡ is_named s.now at name }
{
    let mut good = true;
    for (k, byte) in name.iter().enumerate() {
        good = both(good, s[at + k] % 128 == *byte);
    }
    good
}

// The eleven bytes from `at` on.
pub fn eleven_from(s: &[u8], at: usize) -> [u8; 11]
    requires { at + 11 ≤ length s.now }
    ensures { result ≡ tab (byte_from s.now at) 11 }
{
    array_from(s, at)
}

// The same with the high bits clear.
pub fn name_from(s: &[u8], at: usize) -> [u8; 11]
    requires { at + 11 ≤ length s.now }
    ensures { result ≡ tab (low_from s.now at) 11 }
{
    array::from_fn(|k| s[at + k] % 128)
}

// The file that a user and the eleven bytes from `at` on say.
#[tactic(auto, unfolding(rules::specs::Drive::file_from))]
pub fn file_from(user: u8, s: &[u8], at: usize) -> File
    requires { at + 11 ≤ length s.now }
    ensures { result ≡ file_from user s.now at }
{
    let name = name_from(s, at);
    File { user, name }
}
