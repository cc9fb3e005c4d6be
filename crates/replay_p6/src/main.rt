// Replays stored answers of reading and writing P6 files from C. `stdin` holds cases: a byte for the kind (0 reads, 1 writes),
// then in two bytes each, the lower first, the room that is lent, the height, the width and a length, and so many bytes, the
// file or the pixels. `stdout` has a line for each: `r` or `w`, the number that was returned, the cells of the answer, a colon,
// and the lent bytes after the call, which were all 7 before it.
#![tactic(auto)]

use piet_c::p6::{piet_read_p6, piet_write_p6};
use std::io;
use std::io::Write;
use stored::{Record, pair, print_all, print_first};

fn print_line<W: Write>(
    out: &mut W,
    call: char,
    number: u32,
    answer: &[u64],
    lent: &[u8],
) -> io::Result<()> {
    write!(out, "{call} {number}")?;
    print_all(out, answer)?;
    print_first(out, lent, lent.len())?;
    out.write_all(b"\n")
}

struct Case;

impl Record<9> for Case {
    fn size(head: &[u8; 9], _tail: &[u8]) -> usize {
        pair(head[7], head[8])
    }

    fn print<W: Write>(out: &mut W, head: &[u8; 9], body: &[u8]) -> io::Result<()> {
        let mut space = [7u8; 65536];
        let lent = &mut space[..pair(head[1], head[2])];
        if head[0] == 0 {
            let mut sides = [7u64; 2];
            let number = piet_read_p6(body, lent, &mut sides);
            return print_line(out, 'r', number, &sides, lent);
        }
        let height = pair(head[3], head[4]);
        let width = pair(head[5], head[6]);
        let mut size = [7u64; 1];
        let number = piet_write_p6(body, height, width, lent, &mut size);
        print_line(out, 'w', number, &size, lent)
    }
}

fn main(rt: HostRuntime) -> io::Result<()> {
    stored::replay::<Case, 9>(&rt, rt.stdin(), rt.stdout())
}
