ghost use Rattle.std.specs.Prelude.{◌≡◌, ◌≤◌};
ghost use Rattle.script.specs.Records.{is_start, is_call, is_record};

use crate::part::{MARKS_SIZE, NUMBERS_SIZE, USERS_SIZE};
use rules::size::{DMA_SIZE, FCB_SIZE};

// Sizes in bytes.
pub const START_SIZE: usize = MARKS_SIZE + NUMBERS_SIZE + USERS_SIZE + 1;

pub const CALL_SIZE: usize = MARKS_SIZE + NUMBERS_SIZE + FCB_SIZE + DMA_SIZE;

// A record is whole and has its two mark bytes.
fn is_record(s: &[u8], size: usize, mark: u8) -> bool
    requires { 2 ≤ size }
    ensures { result ≡ is_record size mark s.now }
{
    s.len() == size && s.starts_with(&[b'M', mark])
}

// A start record: 4D 53, three numbers, sixteen users and the rule.
pub fn is_start(s: &[u8]) -> bool
    ensures { result ≡ is_start s.now }
{
    is_record(s, START_SIZE, b'S')
}

// A call record: 4D 43, three numbers, FCB and DMA.
pub fn is_call(s: &[u8]) -> bool
    ensures { result ≡ is_call s.now }
{
    is_record(s, CALL_SIZE, b'C')
}
