// The lines that are printed, each built in bytes of its own.
ghost use Rattle.std.specs.Prelude.{◌≡◌, ◌+◌, ◌^◌, ◌≤◌, [], ◌++◌, length};
ghost use Rattle.script.specs.Records.{first_number, second_number};
ghost use Rattle.script.specs.Lines.{field, header_line, call_line, end_line, bad_start_line, bad_call_line, long_image_line};

use crate::part::{first_number, second_number};
use itoa::Buffer;
use std::marker::Model;

// The bytes of a line so far.
#[derive(Drop)]
pub struct Line {
    bytes: [u8; 128],
    len: usize,
}

impl Model for Line {
    ghost use Rattle.std.specs.Prelude.{ℕ, ◌≤◌, List, take};

    ghost Value = { List ℕ };

    ghost view = { λ l. take l.len l.bytes };

    ghost invariant = { λ l. l.len ≤ 128 };
}

impl Line {
    // One with no bytes.
    pub fn new() -> Self
        ensures { result ≡ [] }
    {
        Line {
            bytes: [0; 128],
            len: 0,
        }
    }

    // Adds bytes.
    fn push(&mut self, v: &[u8])
        requires { length self.old + length v.now ≤ 128 }
        ensures { self.new ≡ self.old ++ v.now }
    {
        let end = self.len + v.len();
        self.bytes[self.len..end].copy_from_slice(v);
        self.len = end;
    }

    // Adds a number in decimal and the byte after it.
    #[tactic(auto, using(crate::proofs::Lines::number_short))]
    fn push_number(&mut self, x: u128, after: u8)
        requires { (x ≤ 2 ^ 64) × (length self.old + 21 ≤ 128) }
        ensures { (self.new ≡ self.old ++ field x after) × (length self.new ≤ length self.old + 21) }
    {
        self.push(Buffer::new().format(x).as_bytes());
        self.push(&[after]);
    }

    // Its bytes.
    pub fn as_bytes(&self) -> &[u8]
        ensures { (result.now ≡ self.now) × (length result.now ≤ 128) }
    {
        &self.bytes[..self.len]
    }
}

// The line before all others.
#[tactic(auto, unfolding(crate::specs::Lines::header_line, crate::specs::Text::text))]
pub fn header_line() -> Line
    ensures { result ≡ header_line }
{
    let mut line = Line::new();
    line.push(b"call process function A H\n");
    line
}

// The line of a call: its number, process and function of its record, and A and H of its answer.
#[tactic(auto, using(crate::proofs::Lines::joined), unfolding(crate::specs::Lines::call_line))]
pub fn call_line(number: u64, s: &[u8], answer: u32) -> Line
    ensures { result ≡ call_line number (second_number s.now) (first_number s.now) answer }
{
    let (process, function) = (second_number(s), first_number(s));
    let mut line = Line::new();
    line.push_number(u128::from(number), b' ');
    line.push_number(u128::from(process), b' ');
    line.push_number(u128::from(function), b' ');
    line.push_number(u128::from(answer % 256), b' ');
    line.push_number(u128::from(answer / 256), b'\n');
    line
}

// The line after so many calls, where the input ends.
#[tactic(auto, unfolding(crate::specs::Lines::end_line, crate::specs::Text::text))]
pub fn end_line(calls: u64) -> Line
    ensures { result ≡ end_line calls }
{
    let mut line = Line::new();
    line.push(b"end ");
    line.push_number(u128::from(calls), b'\n');
    line
}

// The line in its place at a bad start.
#[tactic(auto, unfolding(crate::specs::Lines::bad_start_line, crate::specs::Lines::bad_line, crate::specs::Text::text))]
pub fn bad_start_line() -> Line
    ensures { result ≡ bad_start_line }
{
    let mut line = Line::new();
    line.push(b"bad record ");
    line.push_number(0, b'\n');
    line
}

// The line in its place at a bad record after so many calls. Its number may be one more than 64 bits hold.
#[tactic(auto, unfolding(crate::specs::Lines::bad_call_line, crate::specs::Lines::bad_line, crate::specs::Text::text))]
pub fn bad_call_line(calls: u64) -> Line
    ensures { result ≡ bad_call_line calls }
{
    let mut line = Line::new();
    line.push(b"bad record ");
    line.push_number(u128::from(calls) + 1, b'\n');
    line
}

// The only line where the image is longer than the program takes.
#[tactic(auto, unfolding(crate::specs::Lines::long_image_line, crate::specs::Text::text))]
pub fn long_image_line() -> Line
    ensures { result ≡ long_image_line }
{
    let mut line = Line::new();
    line.push(b"image too long\n");
    line
}
