// Replays stored answers of Rust's text functions, with a model's reasons for skipped lines: `stdin` holds inputs, each a byte for its length and so many bytes;
// `stdout` has a line for each, `c A n i B m`: what CharIn, of edition 1, and IntIn take of it, the value pushed, `b` where the line
// is not UTF-8, or that the step is skipped, each with the bytes consumed. A skipped CharIn is `s`, a skipped IntIn the letter of
// its reason: `e` no byte is left, `w` white space alone, `n` not a number, `o` out of range.
#![tactic(auto)]

use base::edition::Edition;
use std::io;
use std::io::Write;
use stored::Record;
use text::input::{Taken, char_in, int_in};
use text::number::Reason;

fn letter(why: Reason) -> char {
    match why {
        Reason::Ended => 'e',
        Reason::Blank => 'w',
        Reason::NotNumber => 'n',
        Reason::OutOfRange => 'o',
    }
}

// What is taken and the bytes consumed; why a step is skipped only where that is asked for.
fn print_taken<W: Write>(out: &mut W, t: Taken, asks_why: bool) -> io::Result<()> {
    match t {
        Taken::Push { value, next } => write!(out, "{value} {next}"),
        Taken::Skip { next, why } => {
            let mark = if asks_why { letter(why) } else { 's' };
            write!(out, "{mark} {next}")
        }
        Taken::BadInput => out.write_all(b"b 0"),
    }
}

// An input, after its length.
struct Input;

impl Record<1> for Input {
    fn size(length: &[u8; 1], _tail: &[u8]) -> usize {
        usize::from(length[0])
    }

    fn print<W: Write>(out: &mut W, _length: &[u8; 1], input: &[u8]) -> io::Result<()> {
        out.write_all(b"c ")?;
        print_taken(out, char_in(input, 0, Edition::Rust), false)?;
        out.write_all(b" i ")?;
        print_taken(out, int_in(input, 0), true)?;
        out.write_all(b"\n")
    }
}

fn main(rt: HostRuntime) -> io::Result<()> {
    stored::replay::<Input, 1>(&rt, rt.stdin(), rt.stdout())
}
