// The parts of a record: two mark bytes, three numbers, and sixteen users and the rule or FCB and DMA.
ghost use Rattle.std.specs.Prelude.{◌≡◌};
ghost use Rattle.words.specs.Bytes.{byte, part};
ghost use Rattle.script.specs.Records.{first_number, second_number, third_number, users_in, rule_number, fcb_in, dma_in};

use crate::record::CALL_SIZE;
use rules::size::{DMA_SIZE, FCB_SIZE};
use words::byte::array_from;

// Their sizes in bytes.
pub const MARKS_SIZE: usize = 2;

pub const NUMBERS_SIZE: usize = 3;

pub const USERS_SIZE: usize = 16;

// Byte i, 0 past the end.
fn byte_at(s: &[u8], i: usize) -> u8
    ensures { result ≡ byte s.now i }
{
    s.get(i).copied().unwrap_or(0)
}

// The first number: the capacity of a start record, the function of a call record.
pub fn first_number(s: &[u8]) -> u8
    ensures { result ≡ first_number s.now }
{
    byte_at(s, MARKS_SIZE)
}

// The second: the open limit, the process.
pub fn second_number(s: &[u8]) -> u8
    ensures { result ≡ second_number s.now }
{
    byte_at(s, MARKS_SIZE + 1)
}

// The third: the lock limit, the count.
pub fn third_number(s: &[u8]) -> u8
    ensures { result ≡ third_number s.now }
{
    byte_at(s, MARKS_SIZE + 2)
}

// The k bytes from a place on, or those of them that are there.
fn part_of(s: &[u8], at: usize, k: usize) -> &[u8]
    ensures { result.now ≡ part at k s.now }
{
    let rest = s.get(at..).unwrap_or(&[]);
    rest.get(..k).unwrap_or(rest)
}

// The users of a start record.
pub fn users_in(s: &[u8]) -> &[u8]
    ensures { result.now ≡ users_in s.now }
{
    part_of(s, MARKS_SIZE + NUMBERS_SIZE, USERS_SIZE)
}

// Its rule.
pub fn rule_number(s: &[u8]) -> u8
    ensures { result ≡ rule_number s.now }
{
    byte_at(s, MARKS_SIZE + NUMBERS_SIZE + USERS_SIZE)
}

// A copy of the FCB of a call record, for a call to write into.
pub fn fcb_of(s: &[u8; CALL_SIZE]) -> [u8; FCB_SIZE]
    ensures { result ≡ fcb_in s.now }
{
    array_from(s, MARKS_SIZE + NUMBERS_SIZE)
}

// A copy of its DMA.
pub fn dma_of(s: &[u8; CALL_SIZE]) -> [u8; DMA_SIZE]
    ensures { result ≡ dma_in s.now }
{
    array_from(s, MARKS_SIZE + NUMBERS_SIZE + FCB_SIZE)
}
