ghost use Rattle.std.specs.Prelude.{◌≡◌, ◌%◌, ◌<◌, eqb, IfSome};
ghost use Rattle.words.specs.Tests.{◌or◌, all};
ghost use Rattle.rules.specs.Kinds.{entries};
ghost use Rattle.rules.specs.Effects.{is_any, admits_byte, admits_extent, is_match, match_from};
ghost use Rattle.searching.specs.By.{entry_by};

use directory::entry::Entry;
use directory::find::Directory;
use rules::kind::entries;
use rules::size::FCB_SIZE;

// A byte of the pattern admits one of a name: "?" any; high bits take no part.
#[tactic(auto, using(words::proofs::Sets::choices), unfolding(rules::specs::Effects::is_any))]
fn admits(a: u8, b: u8) -> bool
    ensures { result ≡ (is_any a or eqb (b % 128) (a % 128)) }
{
    a % 128 == 63 || b % 128 == a % 128
}

// The FCB's name admits that of an entry.
#[tactic(auto, using(crate::proofs::Finding::naming))]
fn admits_name(fcb: &[u8; FCB_SIZE], entry: &Entry) -> bool
    ensures { result ≡ all (admits_byte fcb.now entry.now.image.now entry.now.place) 11 }
{
    for k in 0..11 {
        if !admits(fcb[1 + k], entry.image[32 * entry.place + 1 + k]) {
            return false;
        }
    }
    true
}

// Byte 12 "?" admits all extents, else only extent 0.
#[tactic(auto, using(words::proofs::Sets::choices), unfolding(rules::specs::Effects::admits_extent))]
fn admits_extent(fcb: &[u8; FCB_SIZE], entry: &Entry) -> bool
    ensures { result ≡ admits_extent fcb.now entry.now.image.now entry.now.place }
{
    fcb[12] == 63 || entry.extent() == 0
}

// An entry is the user's and matches the FCB.
#[tactic(auto, using(words::proofs::Sets::choices), unfolding(rules::specs::Effects::is_match))]
fn is_match(user: u8, fcb: &[u8; FCB_SIZE], entry: &Entry) -> bool
    ensures { result ≡ is_match user fcb.now entry.now.image.now entry.now.place }
{
    !entry.is_empty()
        && entry.image[32 * entry.place] == user
        && admits_name(fcb, entry)
        && admits_extent(fcb, entry)
}

// The first match from an entry on.
#[tactic(auto, using(crate::proofs::Finding::matching))]
pub fn match_from(
    directory: &Directory,
    from: usize,
    user: u8,
    fcb: &[u8; FCB_SIZE],
) -> Option<usize>
    ensures first { result ≡ entry_by directory.now.kind (match_from directory.now.kind from user fcb.now directory.now.image.now) }
    ensures within { IfSome result (λ e. e < entries directory.now.kind) }
{
    for e in from..entries(directory.kind) {
        if is_match(user, fcb, &directory.entry(e)) {
            return Some(e);
        }
    }
    None
}
