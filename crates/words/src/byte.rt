// Bytes put at a place, and numbers in bytes, low byte first.
ghost use Rattle.std.specs.Prelude.{◌≡◌, ◌+◌, ◌*◌, ◌≤◌, ◌<◌, length, replicate};
ghost use Rattle.words.specs.Lists.{tab};
ghost use Rattle.words.specs.Bytes.{put, le, word, byte_from};

use std::array;

// Stores v in s from a place on.
#[tactic(auto, using(crate::proofs::Items::pastes))]
pub fn put_bytes(s: &mut [u8], at: usize, v: &[u8])
    requires { at + length v.now ≤ length s.old }
    ensures { s.new ≡ put at v.now s.old }
{
    for (i, byte) in v.iter().enumerate() {
        s[at + i] = *byte;
    }
}

// Fills a part with one byte.
pub fn fill(s: &mut [u8], b: u8)
    ensures { s.new ≡ replicate (length s.old) b }
{
    s.fill(b);
}

// A byte as a count.
pub fn wide(b: u8) -> usize
    ensures { (result ≡ b) × (result < 256) }
{
    usize::from(b)
}

// A number in three bytes, low byte first.
pub fn three_bytes(n: usize) -> [u8; 3]
    ensures { result ≡ le 3 n }
{
    [
        (n % 256) as u8,
        (n / 256 % 256) as u8,
        (n / 256 / 256 % 256) as u8,
    ]
}

// Three bytes as a number, low byte first.
pub fn three_of(low: u8, middle: u8, high: u8) -> u32
    ensures { (result ≡ low + 256 * middle + 65536 * high) × (result < 16777216) }
{
    u32::from_le_bytes([low, middle, high, 0])
}

// The number that four bytes say, low byte first.
pub fn word_of(a: u8, b: u8, c: u8, d: u8) -> u32
    ensures { result ≡ word a b c d }
{
    u32::from_le_bytes([a, b, c, d])
}

// As many bytes from a place on as the caller's array takes.
pub fn array_from<const N: usize>(s: &[u8], at: usize) -> [u8; N]
    requires { at + N ≤ length s.now }
    ensures { result ≡ tab (byte_from s.now at) N }
{
    array::from_fn(|k| s[at + k])
}
