// The fields of a header: a gap of white space and comments, and a number.
ghost use Rattle.std.specs.Prelude.{◌≡◌, ◌+◌, ◌-◌, ◌*◌, ◌≤◌, length};
ghost use Rattle.netpbm.specs.File.{header_white};
ghost use Rattle.netpbm.specs.Scan.{goes_on, comment_after, cap, capped, GapEnd, NumberEnd, Finds};

use base::digit::is_digit;
use std::cmp::min;

// Every value from here on is kept as this one: no side in bounds and no right maximum is as large. So a number of any length
// is read without wrapping.
const CAP: usize = 1025;

// A number at an index: its value, no more than CAP, and the index after its digits.
#[derive(Clone, Copy)]
pub struct Number {
    pub value: usize,
    pub next: usize,
}

#[tactic(auto, unfolding(crate::specs::File::header_white))]
pub fn is_header_white(b: u8) -> bool
    ensures { result ≡ header_white b }
{
    matches!(b, 0x20 | 0x09 | 0x0D | 0x0A)
}

// Whether a byte belongs to a gap.
#[tactic(auto, unfolding(crate::specs::Scan::goes_on))]
fn goes_on(inside: bool, b: u8) -> bool
    ensures { result ≡ goes_on inside b }
{
    inside || is_header_white(b) || b == 0x23
}

// Whether the byte after one of a gap is inside a comment.
#[tactic(auto, unfolding(crate::specs::Scan::comment_after))]
fn comment_after(inside: bool, b: u8) -> bool
    ensures { result ≡ comment_after inside b }
{
    if inside { b != 0x0A } else { b == 0x23 }
}

// Where the gap at an index ends. A comment that no newline ends runs to the end of the file.
fn gap_end(file: &[u8], at: usize) -> usize
    requires { at ≤ length file.now }
    ensures { GapEnd file.now at result }
{
    let mut inside = false;
    for i in at..file.len() {
        let b = file[i];
        if !goes_on(inside, b) {
            return i;
        }
        inside = comment_after(inside, b);
    }
    file.len()
}

// A value with one digit more.
#[tactic(auto, unfolding(crate::specs::Scan::capped))]
fn next_value(value: usize, b: u8) -> usize
    requires { (value ≤ cap) × (0x30 ≤ b) }
    ensures { result ≡ capped (value * 10 + (b - 0x30)) }
{
    min(value * 10 + (b - 0x30) as usize, CAP)
}

fn number_at(file: &[u8], at: usize) -> Number
    requires { at ≤ length file.now }
    ensures { NumberEnd file.now at result }
{
    let mut value: usize = 0;
    for i in at..file.len() {
        let b = file[i];
        if !is_digit(b) {
            return Number { value, next: i };
        }
        value = next_value(value, b);
    }
    Number {
        value,
        next: file.len(),
    }
}

// A gap and a number, one byte of each at least.
pub fn field_at(file: &[u8], at: usize) -> Option<Number>
    requires { at ≤ length file.now }
    ensures { Finds file.now at result }
{
    let start = gap_end(file, at);
    if start == at {
        return None;
    }
    let number = number_at(file, start);
    if number.next == start {
        return None;
    }
    Some(number)
}
