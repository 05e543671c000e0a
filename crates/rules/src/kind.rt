ghost use Rattle.std.specs.Prelude.{◌≡◌, ◌≤◌, ltb};
ghost use Rattle.rules.specs.Kinds.{told_rule, told_kind, rule_of, block_size, block_records, fewest, most, vector_size, entries, numbers, highest, top, last_module};

// The rule that a book's programs are written to: MP/M II's, or CP/M 2.2's.
#[derive(Clone, Copy, PartialEq, Eq)]
pub enum Rule {
    Mpm,
    Cpm,
}

// The kind of a drive: blocks of 1,024 bytes and one-byte block numbers, or of 2,048 bytes and two-byte numbers; and
// the rule of its book.
#[derive(Clone, Copy, PartialEq, Eq)]
pub enum Kind {
    Small(Rule),
    Large(Rule),
}

// The rule that a number tells.
#[tactic(auto, using(words::proofs::Sets::keys), unfolding(crate::specs::Kinds::told_rule))]
pub fn told_rule(number: u32) -> Rule
    ensures { result ≡ told_rule number }
{
    match number {
        1 => Rule::Cpm,
        _ => Rule::Mpm,
    }
}

// The kind that a number tells, with that rule.
#[tactic(auto, using(words::proofs::Sets::keys), unfolding(crate::specs::Kinds::told_kind))]
pub fn told_kind(number: u32, rule: Rule) -> Option<Kind>
    ensures { result ≡ told_kind number rule }
{
    match number {
        0 => Some(Kind::Small(rule)),
        1 => Some(Kind::Large(rule)),
        _ => None,
    }
}

// Bytes to a block.
#[tactic(auto, unfolding(crate::specs::Kinds::block_size))]
pub fn block_size(kind: Kind) -> usize
    ensures { (result ≡ block_size kind) × (1024 ≤ result) × (result ≤ 2048) }
{
    match kind {
        Kind::Small(_) => 1024,
        Kind::Large(_) => 2048,
    }
}

// Records to a block.
#[tactic(auto, unfolding(crate::specs::Kinds::block_records))]
pub fn block_records(kind: Kind) -> usize
    ensures { (result ≡ block_records kind) × (8 ≤ result) × (result ≤ 16) }
{
    match kind {
        Kind::Small(_) => 8,
        Kind::Large(_) => 16,
    }
}

// Entries of the directory.
#[tactic(auto, unfolding(crate::specs::Kinds::entries))]
pub fn entries(kind: Kind) -> usize
    ensures { (result ≡ entries kind) × (64 ≤ result) × (result ≤ 128) }
{
    match kind {
        Kind::Small(_) => 64,
        Kind::Large(_) => 128,
    }
}

// Block numbers to an entry.
#[tactic(auto, unfolding(crate::specs::Kinds::numbers))]
pub fn numbers(kind: Kind) -> usize
    ensures { (result ≡ numbers kind) × (8 ≤ result) × (result ≤ 16) }
{
    match kind {
        Kind::Small(_) => 16,
        Kind::Large(_) => 8,
    }
}

// The fewest blocks of a drive, and the most.
#[tactic(auto, unfolding(crate::specs::Kinds::fewest))]
pub fn fewest(kind: Kind) -> usize
    ensures { result ≡ fewest kind }
{
    match kind {
        Kind::Small(_) => 3,
        Kind::Large(_) => 257,
    }
}

#[tactic(auto, unfolding(crate::specs::Kinds::most))]
pub fn most(kind: Kind) -> usize
    ensures { result ≡ most kind }
{
    match kind {
        Kind::Small(_) => 256,
        Kind::Large(_) => 4096,
    }
}

// Bytes to a vector: a bit for each of the most blocks.
#[tactic(auto, unfolding(crate::specs::Kinds::vector_size))]
pub fn vector_size(kind: Kind) -> usize
    ensures { (result ≡ vector_size kind) × (result ≤ 512) }
{
    match kind {
        Kind::Small(_) => 32,
        Kind::Large(_) => 512,
    }
}

// The rule of a kind.
#[tactic(auto, unfolding(crate::specs::Kinds::rule_of))]
fn rule_of(kind: Kind) -> Rule
    ensures { result ≡ rule_of kind }
{
    match kind {
        Kind::Small(rule) | Kind::Large(rule) => rule,
    }
}

// The highest record number of a rule.
#[tactic(auto, unfolding(crate::specs::Kinds::highest))]
fn highest(rule: Rule) -> usize
    ensures { result ≡ highest rule }
{
    match rule {
        Rule::Mpm => 262143,
        Rule::Cpm => 65535,
    }
}

// A record number is past the highest.
#[tactic(auto, unfolding(crate::specs::Kinds::top))]
pub fn is_past(kind: Kind, r: usize) -> bool
    ensures { result ≡ ltb (top kind) r }
{
    highest(rule_of(kind)) < r
}

// The highest record's module.
#[tactic(auto, unfolding(crate::specs::Kinds::last_module, crate::specs::Kinds::module_of))]
pub fn last_module(kind: Kind) -> u8
    ensures { result ≡ last_module kind }
{
    match rule_of(kind) {
        Rule::Mpm => 63,
        Rule::Cpm => 15,
    }
}
