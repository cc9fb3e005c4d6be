// Replays stored traces and counts: `stdin` holds jobs, each a length in two bytes, the lower first, and so many bytes; `stdout` has for each
// its trace, a newline and a line `--`, and then its counts and a line `--`. A trace ends with what the run wrote, so that the newline
// may end its last line or stand alone; how many bytes were written stands before them.
#![tactic(auto)]

use std::io;
use std::io::Write;
use stored::Record;

fn print_trace<W: Write>(out: &mut W, job: &[u8]) -> io::Result<()> {
    let mut text = [0u8; 524288];
    let k = trace::trace(job, &mut text);
    out.write_all(&text[..k])?;
    out.write_all(b"\n--\n")
}

fn print_counts<W: Write>(out: &mut W, job: &[u8]) -> io::Result<()> {
    let mut text = [0u8; 16384];
    let k = shade::shade(job, &mut text);
    out.write_all(&text[..k])?;
    out.write_all(b"--\n")
}

// A job, after its length.
struct Job;

impl Record<2> for Job {
    fn size(length: &[u8; 2], _tail: &[u8]) -> usize {
        stored::pair(length[0], length[1])
    }

    fn print<W: Write>(out: &mut W, _length: &[u8; 2], job: &[u8]) -> io::Result<()> {
        print_trace(out, job)?;
        print_counts(out, job)
    }
}

fn main(rt: HostRuntime) -> io::Result<()> {
    stored::replay::<Job, 2>(&rt, rt.stdin(), rt.stdout())
}
