// Bits of bytes, the high bit of byte 0 standing for number 0.
ghost use Rattle.std.specs.Prelude.{◌≡◌, ◌-◌, ◌*◌, ◌^◌, ◌<◌, ◌≤◌, length};
ghost use Rattle.words.specs.Tests.{lowest, count};
ghost use Rattle.words.specs.Bits.{is_set, is_clear, with_bit, without_bit};

// The byte in which bit `j` alone is set, counted from its high end.
fn weight(j: usize) -> u8
    requires { j < 8 }
    ensures { result ≡ 2 ^ (7 - j) }
{
    128u8 >> j
}

// Bit `b` is set.
pub fn is_set(bits: &[u8], b: usize) -> bool
    requires { b < 8 * length bits.now }
    ensures { result ≡ is_set bits.now b }
{
    (bits[b / 8] & weight(b % 8)) != 0
}

// Sets bit `b`.
pub fn set(bits: &mut [u8], b: usize)
    requires { b < 8 * length bits.old }
    ensures { bits.new ≡ with_bit b bits.old }
{
    let at = b / 8;
    bits[at] = bits[at] | weight(b % 8);
}

// Clears bit `b`.
pub fn clear(bits: &mut [u8], b: usize)
    requires { b < 8 * length bits.old }
    ensures { bits.new ≡ without_bit b bits.old }
{
    let place = b / 8;
    bits[place] = bits[place] - (bits[place] & weight(b % 8));
}

// The lowest number below `n` whose bit is clear, `n` where there is none.
#[tactic(auto, using(crate::proofs::Bitwise::clears))]
pub fn lowest_clear(bits: &[u8], n: usize) -> usize
    requires { n ≤ 8 * length bits.now }
    ensures { (result ≡ lowest (is_clear bits.now) n) × (result ≤ n) }
{
    for b in 0..n {
        if !is_set(bits, b) {
            return b;
        }
    }
    n
}

// How many numbers below `n` have a clear bit.
#[tactic(auto, using(crate::proofs::Bitwise::clear_counts))]
pub fn clear_count(bits: &[u8], n: usize) -> usize
    requires { n ≤ 8 * length bits.now }
    ensures { (result ≡ count (is_clear bits.now) n) × (result ≤ n) }
{
    let mut clear = 0;
    for b in 0..n {
        if !is_set(bits, b) {
            clear += 1;
        }
    }
    clear
}
