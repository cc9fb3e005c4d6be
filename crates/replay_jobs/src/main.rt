// Replays stored answers of the run program: `stdin` holds jobs, each a length in two bytes, the lower first, and so many
// bytes; `stdout` has for each what the run program prints, and a line `--`.
#![tactic(auto)]

use std::io;
use std::io::Write;
use stored::Record;

// A job, after its length.
struct Job;

impl Record<2> for Job {
    fn size(length: &[u8; 2], _tail: &[u8]) -> usize {
        stored::pair(length[0], length[1])
    }

    fn print<W: Write>(out: &mut W, _length: &[u8; 2], job: &[u8]) -> io::Result<()> {
        let mut text = [0u8; 16384];
        let k = answer::answer(job, &mut text);
        out.write_all(&text[..k])?;
        out.write_all(b"--\n")
    }
}

fn main(rt: HostRuntime) -> io::Result<()> {
    stored::replay::<Job, 2>(&rt, rt.stdin(), rt.stdout())
}
