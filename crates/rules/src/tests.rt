ghost use Rattle.std.specs.Prelude.{◌≡◌, ◌≤◌, get_or};
ghost use Rattle.words.specs.Tests.{◌if◌else◌};
ghost use Rattle.rules.specs.Locks.{same_name};

// Two names are the same.
#[tactic(auto, using(crate::proofs::Items::name_tested))]
pub fn same_name(a: [u8; 11], b: [u8; 11]) -> bool
    ensures { result ≡ same_name a b }
{
    a == b
}

// 1 where a test holds, else 0.
#[tactic(auto, using(crate::proofs::Items::one_tested))]
pub fn one_if(t: bool) -> usize
    ensures { (result ≡ (1 if t else 0)) × (result ≤ 1) }
{
    usize::from(t)
}

// The user of a process, 0 for a process past the last.
pub fn user_in(users: [u8; 16], p: u8) -> u8
    ensures { result ≡ get_or users p 0 }
{
    users.get(usize::from(p)).copied().unwrap_or(0)
}
