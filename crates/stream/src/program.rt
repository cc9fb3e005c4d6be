// A program that reads a job on standard input and prints what it says of it. Where standard input can't be read it prints nothing,
// since what came of the job is no job (rule 13.7).

ghost use Rattle.std.specs.Prelude.{◌≡◌, List, ℕ, ◌≤◌, length, take};
ghost use Rattle.stream.specs.Responds.{Responds};

use crate::{Stop, Watched, is_whole, read_whole, write_whole};
use std::fmt;
use std::io::{Error, Read, Write};
use std::process::ExitCode;
use std::time::Clock;

// One byte more than the longest job, so that a longer one is seen to be longer.
const ROOM: usize = 8193;

// What a program says of a job: `Outcome job before r after` is what it leaves in a lent slice, and how long the text is.
pub trait Program {
    ghost Outcome: { List ℕ → List ℕ → ℕ → List ℕ → Type 0 };

    // The text to print, at the start of out, and its length.
    fn say(job: &[u8], out: &mut [u8]) -> usize
        ensures { Outcome job.now out.old result out.new };

    // the text lies in what is lent
    ghost within: { (job before : List ℕ) (r : ℕ) (after : List ℕ) → Outcome job before r after → r ≤ length after };

    // of a job that is too long the first bytes tell as much
    ghost cut: { (job before : List ℕ) (r : ℕ) (after : List ℕ) → Outcome (take 8193 job) before r after → Outcome job before r after };
}

// Why a program printed nothing, or not all.
#[derive(Drop)]
enum Failure {
    Unread(Error),
    Unwritten(Error),
}

impl fmt::Display for Failure {
    fn fmt<W: fmt::Write>(&self, f: &mut fmt::Formatter<W>) -> fmt::Result {
        match self {
            Failure::Unread(reason) => write!(f, "standard input can't be read: {reason}"),
            Failure::Unwritten(reason) => write!(f, "standard output can't be written: {reason}"),
        }
    }
}

// The text to print, at the start of out, and its length: what the program says of an input that was read whole.
fn respond<P: Program>(stop: Stop, job: &[u8], out: &mut [u8]) -> usize
    requires { (8193 ≡ length job.now) × (stop.done ≤ length job.now) }
    ensures within { result ≤ length out.new }
    ensures says { Responds P.Outcome stop job.now out.old result out.new }
{
    if !is_whole(stop, job.len()) {
        return 0;
    }
    let n = stop.done;
    P::say(&job[..n], out)
}

// Reads a job and writes what is said of it. The room is a parameter, since a proof that sees an array of 524288 cells computes it.
fn serve<P: Program, R: Read + Drop, W: Write + Drop, const OUT: usize>(
    clock: &impl Clock,
    input: R,
    output: W,
) -> Result<(), Failure>
    requires { OUT ≤ 1048576 }
{
    let mut job = [0u8; ROOM];
    let mut input = Watched::new(input);
    let read = read_whole(clock, &mut input, &mut job);
    if !is_whole(read, ROOM) {
        return Err(Failure::Unread(input.reason()));
    }
    let mut out = [0u8; OUT];
    let n = respond::<P>(read, &job, &mut out);
    let mut output = Watched::new(output);
    let written = write_whole(clock, &mut output, &out[..n]);
    if written.done < n {
        return Err(Failure::Unwritten(output.reason()));
    }
    Ok(())
}

// Runs a program of a name; why it failed goes to standard error.
pub fn run<P: Program, R: Read + Drop, W: Write + Drop, const OUT: usize>(
    rt: &(impl Clock + Eprint),
    name: &str,
    input: R,
    output: W,
) -> ExitCode
    requires { OUT ≤ 1048576 }
{
    match serve::<P, R, W, OUT>(rt, input, output) {
        Ok(()) => ExitCode::SUCCESS,
        Err(failure) => {
            let _ = eprintln!(rt; "{name}: {failure}");
            ExitCode::FAILURE
        }
    }
}
