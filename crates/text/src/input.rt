// What an input instruction takes: a line, with its newline (rule 10.1); of CharIn in edition 2, one character (rule 16.4).
ghost use Rattle.std.specs.Prelude.{◌≡◌, ◌<◌, ◌≤◌, length};
ghost use Rattle.base.specs.declared.edition.Edition.TheVariants.{Page};
ghost use Rattle.text.specs.Input.{Takes, int_of, char_of, whole_line, after_char, char_next};
ghost use Rattle.text.specs.Input.{within_line, Judged};
ghost use Rattle.text.specs.Line.{line_at, line_end};
ghost use Rattle.text.specs.Utf8.{Valid};

use crate::number::{Reason, parse};
use crate::utf8::{Decoded, decode, is_utf8};
use crate::white::trim;
use base::edition::Edition;

// A value to push, or why there is none, with the place where reading goes on; or a line that is not UTF-8. Three cases, and so
// neither an Option nor a Result.
#[derive(Clone, Copy)]
pub enum Taken {
    Push { value: i64, next: usize },
    Skip { next: usize, why: Reason },
    BadInput,
}

// The place after the newline that ends the line at `at`, or the end of the input.
pub fn line_end(input: &[u8], at: usize) -> usize
    ensures { result ≡ line_end input.now at }
{
    for i in at..input.len() {
        if input[i] == 10 {
            return i + 1;
        }
    }
    input.len().max(at)
}

// IntIn: the line as a number, without the white space at its ends (rule 10.3), or why it is none (rule 10.8). At the end of
// the input the step is skipped (rule 10.4).
pub fn int_in(input: &[u8], at: usize) -> Taken
    ensures { Takes int_of whole_line input.now at result }
{
    if input.len() <= at {
        return Taken::Skip {
            next: at,
            why: Reason::Ended,
        };
    }
    let end = line_end(input, at);
    let line = &input[at..end];
    if is_utf8(line) {
        // a match, since both are used: the value, and the reason
        match parse(trim(line)) {
            Ok(value) => Taken::Push { value, next: end },
            Err(why) => Taken::Skip { next: end, why },
        }
    } else {
        Taken::BadInput
    }
}

// Where reading goes on after a character: at the end of its line, or in edition 2 at the place next to it (rule 16.4).
fn after_char(edition: Edition, end: usize, next: usize) -> usize
    ensures { result ≡ after_char edition end next }
{
    match edition {
        Edition::Rust => end,
        Edition::Page => next,
    }
}

// Whether a place lies within a line: the byte before it is no newline.
fn within_line(input: &[u8], at: usize) -> bool
    requires { at ≤ length input.now }
    ensures { result ≡ within_line input.now at }
{
    if at == 0 {
        return false;
    }
    input[at - 1] != 10
}

// CharIn within a line: the next character. The line was judged at its first read, and is not looked at again, so that a
// line that is read by characters costs its length and not the square of it.
fn char_within(input: &[u8], at: usize) -> Taken
    requires at_in_bounds { at < length input.now }
    requires valid { Valid (line_at input.now at) }
    ensures { Takes char_of (char_next Page) input.now at result }
{
    let Decoded::Char { cp, next } = decode(input, at) else {
        // never reached: what is left of the line is UTF-8
        return Taken::BadInput;
    };
    let value = cp as i64;
    Taken::Push { value, next }
}

// CharIn: the first character of what is left of the line, which is the newline where there is no other (rules 10.2, 16.4).
pub fn char_in(input: &[u8], at: usize, edition: Edition) -> Taken
    requires { Judged edition input.now at }
    ensures { Takes char_of (char_next edition) input.now at result }
{
    if input.len() <= at {
        return Taken::Skip {
            next: at,
            why: Reason::Ended,
        };
    }
    if within_line(input, at) {
        return char_within(input, at);
    }
    let end = line_end(input, at);
    // all of it is judged, in edition 2 too, where one character is taken
    let whole = &input[at..end];
    if is_utf8(whole) {
        let Decoded::Char { cp, next: size } = decode(whole, 0) else {
            // never reached: a line has a character
            return Taken::Skip {
                next: end,
                why: Reason::Ended,
            };
        };
        let value = cp as i64;
        let next = after_char(edition, end, at + size);
        Taken::Push { value, next }
    } else {
        Taken::BadInput
    }
}
