ghost use Rattle.std.specs.Prelude.{◌≡◌, [], ◌∷◌};
ghost use Rattle.rules.specs.Locks.{kind_of, first_mark, second_mark};

use rules::item::{A_LOCK, AN_EMPTY, AN_OPEN, NO_MARK};

// The mark before an open, and the one before a record lock.
const OPEN: [u8; 2] = *b"OF";

const LOCK: [u8; 2] = *b"LR";

// The kind that two bytes of mark say.
#[tactic(auto, using(words::proofs::Sets::choices), unfolding(rules::specs::Locks::kind_of))]
pub fn kind_of(a: u8, b: u8) -> u8
    ensures { result ≡ kind_of a b }
{
    match [a, b] {
        OPEN => AN_OPEN,
        LOCK => A_LOCK,
        [0, 0] => AN_EMPTY,
        _ => NO_MARK,
    }
}

// A kind's mark.
#[tactic(auto, using(words::proofs::Sets::keys), unfolding(rules::specs::Locks::first_mark, rules::specs::Locks::second_mark))]
pub fn mark_of(kind: u8) -> [u8; 2]
    ensures { result ≡ first_mark kind ∷ second_mark kind ∷ [] }
{
    match kind {
        AN_OPEN => OPEN,
        A_LOCK => LOCK,
        _ => [0, 0],
    }
}
