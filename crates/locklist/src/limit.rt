// What the numbers in a list's head and its rule may be, told to Start or read from the bytes.
ghost use Rattle.std.specs.Prelude.{◌≡◌, length};
ghost use Rattle.words.specs.Tests.{all};
ghost use Rattle.rules.specs.Locks.{is_limit, is_rule, is_user};

// A limit is 1 to 64.
#[tactic(auto, using(words::proofs::Sets::choices), unfolding(rules::specs::Locks::is_limit))]
pub fn is_limit(n: u32) -> bool
    ensures { result ≡ is_limit n }
{
    (1..=64).contains(&n)
}

// A byte is 1 to 64.
pub fn is_limit_byte(b: u8) -> bool
    ensures { result ≡ is_limit b }
{
    is_limit(u32::from(b))
}

// A rule is 0 or 1.
#[tactic(auto, unfolding(rules::specs::Locks::is_rule))]
pub fn is_rule(n: u32) -> bool
    ensures { result ≡ is_rule n }
{
    n <= 1
}

// A byte is the number of a rule.
pub fn is_rule_byte(b: u8) -> bool
    ensures { result ≡ is_rule b }
{
    is_rule(u32::from(b))
}

// Each of the sixteen users is 0 to 15.
pub fn all_users(users: &[u8]) -> bool
    requires { length users.now ≡ 16 }
    ensures { result ≡ all (is_user users.now) 16 }
{
    users.iter().all(|user| *user <= 15)
}
