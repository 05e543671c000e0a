// Lists of bytes compared with each other and with zeros.
ghost use Rattle.std.specs.Prelude.{◌≡◌, length};
ghost use Rattle.words.specs.Tests.{all};
ghost use Rattle.words.specs.Bytes.{same_byte, is_zero};

use crate::test::both;

// Two lists of as many bytes are the same. All of them are looked at, which is quicker than to stop where they differ.
#[tactic(auto, using(crate::proofs::Joined::joins), unfolding(crate::specs::Bytes::same_byte))]
pub fn same(a: &[u8], b: &[u8]) -> bool
    requires { length b.now ≡ length a.now }
    ensures { result ≡ all (same_byte a.now b.now) (length a.now) }
{
    let mut good = true;
    for k in 0..a.len() {
        good = both(good, a[k] == b[k]);
    }
    good
}

// All bytes are zero. All of them are looked at.
#[tactic(auto, using(crate::proofs::Joined::joins), unfolding(crate::specs::Bytes::is_zero))]
pub fn zeros(s: &[u8]) -> bool
    ensures { result ≡ all (is_zero s.now) (length s.now) }
{
    let mut good = true;
    for byte in s {
        good = both(good, *byte == 0);
    }
    good
}
