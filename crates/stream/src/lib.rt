// An input read whole and an output written whole, over a reader's read and a writer's write.
#![tactic(auto)]

ghost use Rattle.std.specs.Prelude.{◌≡◌, ◌-◌, ◌<◌, ◌≤◌, length, take, drop, true, pos, None, Some, MatchOption, OnOk, IfErr};
ghost use Rattle.std.specs.IoError.{raw_os_error, error_kind};
ghost use Rattle.std.specs.Io.{ReadsAtMost, WritesAtMost};
ghost use Rattle.std.specs.Io.KnownBytes.{Appends, Consumes, IsAtEnd, ReadConsumes, WriteAppends};
ghost use Rattle.stream.specs.Stream.{step_of, is_end, whole_input, Stops};
ghost use Rattle.stream.specs.Calls.{moved_of, vain_of, goes_on, Makes, Reads};

pub mod program;

use std::io::{Error, ErrorKind, Read, Write};
use std::time::{Clock, Duration};
use std::{io, thread};

// What one call of read or write came to.
#[derive(Clone, Copy)]
pub enum Step {
    Moved(usize),
    End,
    Again,
    Failed,
}

// Where reading or writing stopped: the bytes moved, and what the last call came to.
#[derive(Clone, Copy)]
pub struct Stop {
    pub done: usize,
    pub last: Step,
}

// The error numbers of a call that a signal interrupted, and of one that could do nothing yet.
const EINTR: i32 = 4;

const EAGAIN: i32 = 11;

// So many calls in vain, with a millisecond's wait after each, take more than 49 days.
const PATIENCE: u64 = 4294967296;

// What a call came to, by its answer and errno. Only an answer of 0 is the end: a call that failed says nothing of the input.
fn judge(took: isize, error: i32) -> Step
    ensures { result ≡ step_of took error }
{
    if took > 0 {
        return Step::Moved(took as usize);
    }
    if took == 0 {
        return Step::End;
    }
    if error == EINTR || error == EAGAIN {
        return Step::Again;
    }
    Step::Failed
}

fn moved(step: Step) -> usize
    ensures { result ≡ moved_of step }
{
    match step {
        Step::Moved(n) => n,
        Step::End | Step::Again | Step::Failed => 0,
    }
}

// Waits a millisecond, or less where a signal comes.
fn pause(clock: &impl Clock) {
    thread::sleep(clock, Duration::from_millis(1));
}

// Waits where the call is to be made again, and counts it as one in vain.
fn waited(clock: &impl Clock, step: Step) -> u64
    ensures { result ≡ vain_of step }
{
    match step {
        Step::Again => {
            pause(clock);
            1
        }
        Step::Moved(_) | Step::End | Step::Failed => 0,
    }
}

fn goes_on(last: Step) -> bool
    ensures { result ≡ goes_on last }
{
    matches!(last, Step::Moved(_) | Step::Again)
}

// The number of the error that a call left; 0 where it has none.
fn number_of(error: &Error) -> i32
    ensures { MatchOption (raw_os_error error.now) (result ≡ pos 0) (λ number. result ≡ number) }
{
    error.raw_os_error().unwrap_or(0)
}

// One read into buf, from an index on.
fn read_from<R: Read>(reader: &mut R, buf: &mut [u8], from: usize) -> Step
    requires { from ≤ length buf.old }
    ensures reads { Reads buf.old from result buf.new }
    ensures bytes { Consumes (R.remaining reader.old) (R.remaining reader.new) (take (moved_of result) (drop from buf.new)) }
    ensures end { is_end result ≡ true → from < length buf.old → IsAtEnd (R.remaining reader.new) }
{
    match reader.read(&mut buf[from..]) {
        Ok(n) => judge(n as isize, 0),
        Err(e) => judge(-1, number_of(&e)),
    }
}

// One write of buf's bytes from an index on.
fn write_from<W: Write>(writer: &mut W, buf: &[u8], from: usize) -> Step
    requires { from ≤ length buf.now }
    ensures makes { Makes (length buf.now - from) result }
    ensures bytes { Appends (W.contents writer.old) (W.contents writer.new) (take (moved_of result) (drop from buf.now)) }
{
    match writer.write(&buf[from..]) {
        Ok(n) => judge(n as isize, 0),
        Err(e) => judge(-1, number_of(&e)),
    }
}

// Reads until buf is full, the input ends or a read fails.
pub fn read_whole<R: Read>(clock: &impl Clock, reader: &mut R, buf: &mut [u8]) -> Stop
    ensures stops { Stops result buf.old buf.new }
    ensures bytes { Consumes (R.remaining reader.old) (R.remaining reader.new) (take result.done buf.new) }
    ensures end { is_end result.last ≡ true → IsAtEnd (R.remaining reader.new) }
{
    let mut done = 0;
    let mut last = Step::Again;
    let mut tries: u64 = 0;
    while done < buf.len() && tries < PATIENCE && goes_on(last) {
        last = read_from(reader, buf, done);
        done += moved(last);
        tries += waited(clock, last);
    }
    Stop { done, last }
}

// Writes until all of buf is written or a write fails.
pub fn write_whole<W: Write>(clock: &impl Clock, writer: &mut W, buf: &[u8]) -> Stop
    ensures within { result.done ≤ length buf.now }
    ensures bytes { Appends (W.contents writer.old) (W.contents writer.new) (take result.done buf.now) }
{
    let mut done = 0;
    let mut last = Step::Again;
    let mut tries: u64 = 0;
    while done < buf.len() && tries < PATIENCE && goes_on(last) {
        last = write_from(writer, buf, done);
        done += moved(last);
        tries += waited(clock, last);
    }
    Stop { done, last }
}

fn is_end(last: Step) -> bool
    ensures { result ≡ is_end last }
{
    matches!(last, Step::End)
}

// Whether all of an input was read: the room is full, or the last read found the end.
pub fn is_whole(stop: Stop, room: usize) -> bool
    ensures { result ≡ whole_input stop room }
{
    stop.done == room || is_end(stop.last)
}

// A reader or a writer, with the error of its last call that failed.
#[derive(Drop)]
pub struct Watched<T> {
    inner: T,
    error: Option<Error>,
}

impl<T> Watched<T> {
    pub fn new(inner: T) -> Watched<T>
        ensures inner { result.inner ≡ inner }
        ensures none { result.error ≡ None }
    {
        Watched { inner, error: None }
    }

    // Why a call failed; where none did, some other error.
    pub fn reason(&self) -> Error
        ensures { MatchOption self.now.error (error_kind result ≡ ErrorKind.Other) (λ error. result ≡ error) }
    {
        match self.error {
            Some(error) => error,
            None => Error::from(ErrorKind::Other),
        }
    }
}

impl<R: Read> Read for Watched<R> {
    ghost remaining = { λ w. R.remaining w.inner };

    fn read(&mut self, buf: &mut [u8]) -> io::Result<usize>
        ensures bound { ReadsAtMost result buf.new }
        ensures bytes { ReadConsumes (R.remaining self.old.inner) (R.remaining self.new.inner) result buf.new }
        ensures ok { OnOk result (self.new.error ≡ self.old.error) }
        ensures err { IfErr result (λ error. self.new.error ≡ Some error) }
    {
        match self.inner.read(buf) {
            Ok(n) => Ok(n),
            Err(error) => {
                self.error = Some(error);
                Err(error)
            }
        }
    }
}

impl<W: Write> Write for Watched<W> {
    ghost contents = { λ w. W.contents w.inner };

    fn write(&mut self, buf: &[u8]) -> io::Result<usize>
        ensures bound { WritesAtMost result buf.now }
        ensures bytes { WriteAppends (W.contents self.old.inner) (W.contents self.new.inner) result buf.now }
        ensures ok { OnOk result (self.new.error ≡ self.old.error) }
        ensures err { IfErr result (λ error. self.new.error ≡ Some error) }
    {
        match self.inner.write(buf) {
            Ok(n) => Ok(n),
            Err(error) => {
                self.error = Some(error);
                Err(error)
            }
        }
    }

    fn flush(&mut self) -> io::Result<()> {
        self.inner.flush()
    }
}
