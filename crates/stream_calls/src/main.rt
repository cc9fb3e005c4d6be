// Reads from a reader whose calls fail and writes to a writer whose calls fail, as those of a closed standard input do, and
// prints what came of it: a call that failed is no end of an input, and nothing was written. A program's own reader and writer
// tell nothing of their bytes, so that no contract of the run program's says so; a loop that made up an end would print another
// text than `stdout` here.
#![tactic(auto)]

use std::io;
use std::io::{Error, Read, Write};

// The error number of a call on a descriptor that is none.
const EBADF: i32 = 9;

// A descriptor that is none.
#[derive(Drop)]
struct Closed;

impl Read for Closed {
    fn read(&mut self, _buf: &mut [u8]) -> io::Result<usize> {
        Err(Error::from_raw_os_error(EBADF))
    }
}

impl Write for Closed {
    fn write(&mut self, _buf: &[u8]) -> io::Result<usize> {
        Err(Error::from_raw_os_error(EBADF))
    }

    fn flush(&mut self) -> io::Result<()> {
        Ok(())
    }
}

fn print_whole(rt: &impl Print, name: &str, whole: bool) -> io::Result<()> {
    if whole {
        println!(rt; "{name} whole")
    } else {
        println!(rt; "{name} not whole")
    }
}

fn main(rt: HostRuntime) -> io::Result<()> {
    let mut space = [0u8; 16];
    let read = stream::read_whole(&rt, &mut Closed, &mut space);
    let whole = stream::is_whole(read, 16);
    print_whole(&rt, "read", whole)?;
    let written = stream::write_whole(&rt, &mut Closed, b"text");
    print_whole(&rt, "written", written.done == 4)
}
