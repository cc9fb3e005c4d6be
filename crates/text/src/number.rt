// Numbers as text: what IntIn reads, and why a line gives none (rules 10.3, 10.8).
ghost use Rattle.std.specs.Prelude.{◌≡◌, ◌^◌, ◌≤◌};
ghost use Rattle.base.specs.Text.{numeral};
ghost use Rattle.text.specs.Magnitude.{magnitude_of};
ghost use Rattle.text.specs.Number.{plus, minus, parsed};

use base::digit::is_digit;

// Why a line is skipped (rule 10.8).
#[derive(Clone, Copy, PartialEq, Eq, Debug)]
pub enum Reason {
    // There is no line: no byte is left.
    Ended,
    // White space alone.
    Blank,
    // Something that hasn't the form of a number.
    NotNumber,
    // A number, but none from -2^63 to 2^63 - 1.
    OutOfRange,
}

// Whether the bytes are digits, at least one.
fn is_numeral(s: &[u8]) -> bool
    ensures { result ≡ numeral s.now }
{
    !s.is_empty() && s.iter().all(|b| is_digit(*b))
}

// The value of digits, where it is no more than `limit`. The form is tested to its last byte before the value is looked at:
// digits that are too many and then a letter are no number. The test of the value comes before the product, which then can't
// wrap; with a limit of 9 or more neither can `limit - d`.
fn magnitude(s: &[u8], limit: u64) -> Result<u64, Reason>
    requires { (9 ≤ limit) × (limit ≤ 2 ^ 63) }
    ensures { result ≡ magnitude_of limit s.now }
{
    if !is_numeral(s) {
        return Err(Reason::NotNumber);
    }
    let mut n: u64 = 0;
    for b in s {
        let d = (*b - 0x30) as u64;
        if (limit - d) / 10 < n {
            return Err(Reason::OutOfRange);
        }
        n = n * 10 + d;
    }
    Ok(n)
}

// The number that digits make.
fn positive(s: &[u8]) -> Result<i64, Reason>
    ensures { result ≡ plus s.now }
{
    let n = magnitude(s, 0x7FFF_FFFF_FFFF_FFFF)?;
    Ok(n as i64)
}

// The number that digits make after a minus sign. -1 - (n - 1) reaches -2^63, where n itself is no i64.
fn negative(s: &[u8]) -> Result<i64, Reason>
    ensures { result ≡ minus s.now }
{
    let n = magnitude(s, 0x8000_0000_0000_0000)?;
    if n == 0 {
        return Ok(0);
    }
    Ok(-1 - ((n - 1) as i64))
}

// What a line gives: a number in decimal, with a sign or none, or the reason why it is skipped. An empty text is a blank line.
pub fn parse(line: &[u8]) -> Result<i64, Reason>
    ensures { result ≡ parsed line.now }
{
    if line.len() == 0 {
        return Err(Reason::Blank);
    }
    let b = line[0];
    if b == b'-' {
        return negative(&line[1..]);
    }
    if b == b'+' {
        return positive(&line[1..]);
    }
    positive(line)
}
