// Replays stored runs, of the Rust in edition 1, with a model's counts of skipped lines, and of a model in edition 2 and over
// tables of edition 2 with long slides: `stdin` holds questions, each the edition of the building and that of the run, a byte
// each, a picture, then the limit in four bytes, the mode, the stack's room and the output's room, a byte each, the input's
// length in two, the lower first, and the input; `stdout` has a line for each: the run's twelve numbers, the stack from its
// top, and a kind and a value for each output. Where the run is not refused a line follows: how many nodes it never entered,
// how often it entered each region, and those nodes; and one more: twelve cells that held 9999, which is no exit of a table
// here, with the exits that it took.
#![tactic(auto)]

ghost use Rattle.std.specs.Prelude.{◌≤◌, length};

use std::cmp::min;
use std::io;
use std::io::Write;
use stored::{Record, area, pair, print_all, print_first};

// A table of n regions.
#[derive(Clone, Copy)]
struct Table<'a> {
    n: usize,
    rows: &'a [u32],
    exits: &'a [u32],
}

// The run that is asked for, but for the room of its stack and its outputs.
#[derive(Clone, Copy)]
struct Run<'a> {
    edition: u32,
    limit: u64,
    abstract_mode: bool,
    input: &'a [u8],
}

// The room that is lent to a run.
#[derive(Drop)]
struct Room<'a> {
    stack: &'a mut [i64],
    kinds: &'a mut [u8],
    values: &'a mut [i64],
}

// The first depth values from the last to the first.
fn print_stack<W: Write>(out: &mut W, stack: &[i64], depth: usize) -> io::Result<()> {
    out.write_all(b" :")?;
    for value in stack[..min(depth, stack.len())].iter().rev() {
        write!(out, " {value}")?;
    }
    Ok(())
}

fn print_outputs<W: Write>(out: &mut W, room: &Room, outputs: usize) -> io::Result<()> {
    out.write_all(b" :")?;
    let kinds = room.kinds.iter();
    let values = room.values.iter();
    for (kind, value) in kinds.zip(values).take(outputs) {
        write!(out, " {kind} {value}")?;
    }
    Ok(())
}

// The run, in the room that is lent.
fn print_run<W: Write>(out: &mut W, t: &Table, run: &Run, room: &mut Room) -> io::Result<()> {
    let mut answer = [0u64; 12];
    let number = piet_c::piet_run(
        t.n,
        t.rows,
        t.exits,
        run.edition,
        run.limit,
        run.abstract_mode,
        run.input,
        room.stack,
        room.kinds,
        room.values,
        &mut answer,
    );
    if number != 0 {
        return write!(out, "refused {number}");
    }
    let status = answer[0];
    write!(out, "{status}")?;
    print_all(out, &answer[1..])?;
    print_stack(out, room.stack, answer[5] as usize)?;
    print_outputs(out, room, answer[6] as usize)
}

// How often the same run enters each region. A refusal is told by the run's line.
fn print_visits<W: Write>(out: &mut W, t: &Table, run: &Run, room: &mut Room) -> io::Result<()> {
    let mut visits = [0u64; 1024];
    let mut unvisited = [0u32; 1024];
    let mut answer = [0u64; 13];
    let number = piet_c::run_visits::piet_visits(
        t.n,
        t.rows,
        t.exits,
        run.edition,
        run.limit,
        run.abstract_mode,
        run.input,
        room.stack,
        room.kinds,
        room.values,
        &mut visits,
        &mut unvisited,
        &mut answer,
    );
    if number != 0 {
        return Ok(());
    }
    let never = answer[12];
    write!(out, "\nvisits {never}")?;
    print_first(out, &visits, t.n)?;
    print_first(out, &unvisited, never as usize)
}

// The exits that the same run takes, as far as there are cells. A refusal is told by the run's line.
fn print_history<W: Write>(out: &mut W, t: &Table, run: &Run, room: &mut Room) -> io::Result<()> {
    let mut taken = [9999u32; 12];
    let mut answer = [0u64; 12];
    let number = piet_c::run_history::piet_history(
        t.n,
        t.rows,
        t.exits,
        run.edition,
        run.limit,
        run.abstract_mode,
        run.input,
        room.stack,
        room.kinds,
        room.values,
        &mut taken,
        &mut answer,
    );
    if number != 0 {
        return Ok(());
    }
    out.write_all(b"\nhistory")?;
    print_all(out, &taken)
}

// The three lines, in the same room.
fn print_answers<W: Write>(
    out: &mut W,
    t: &Table,
    run: &Run,
    depth: usize,
    outputs: usize,
) -> io::Result<()>
    requires { (depth ≤ 255) × (outputs ≤ 255) }
{
    let mut stack = [0i64; 256];
    let mut kinds = [0u8; 256];
    let mut values = [0i64; 256];
    let mut room = Room {
        stack: &mut stack[..depth],
        kinds: &mut kinds[..outputs],
        values: &mut values[..outputs],
    };
    print_run(out, t, run, &mut room)?;
    print_visits(out, t, run, &mut room)?;
    print_history(out, t, run, &mut room)
}

// A picture and the run that is asked for: two editions, the height, the width and the codel's width stand before.
struct Question;

impl Question {
    // The colours, the run's nine bytes and its input, if they are not cut.
    fn parts<'a>(head: &[u8; 5], tail: &'a [u8]) -> Option<(&'a [u8], &'a [u8; 9], &'a [u8])> {
        let (colours, rest) = tail.split_at_checked(area(head[2], head[3]))?;
        let (asked, input) = rest.split_first_chunk::<9>()?;
        Some((colours, asked, input))
    }
}

impl Record<5> for Question {
    fn size(head: &[u8; 5], tail: &[u8]) -> usize {
        match Question::parts(head, tail) {
            Some((_, asked, _)) => area(head[2], head[3]) + 9 + pair(asked[7], asked[8]),
            None => tail.len(),
        }
    }

    fn print<W: Write>(out: &mut W, head: &[u8; 5], body: &[u8]) -> io::Result<()> {
        let Some((colours, asked, input)) = Question::parts(head, body) else {
            return Ok(());
        };
        let mut map = [0u32; 1024];
        let mut rows = [0u32; 5120];
        let mut exits = [0u32; 8192];
        let mut work = [0u32; 1024];
        let [building, running, height, width, codel] = *head;
        let built = cfg::build(
            colours,
            usize::from(height),
            usize::from(width),
            usize::from(codel),
            stored::edition(building),
            &mut map,
            &mut rows,
            &mut exits,
            &mut work,
        );
        if let Ok(regions) = built {
            let t = Table {
                n: regions,
                rows: &rows,
                exits: &exits,
            };
            let run = Run {
                edition: stored::edition(running),
                limit: u64::from(u32::from_le_bytes([asked[0], asked[1], asked[2], asked[3]])),
                abstract_mode: asked[4] == 1,
                input,
            };
            print_answers(out, &t, &run, usize::from(asked[5]), usize::from(asked[6]))?;
        } else {
            out.write_all(b"refused")?;
        }
        out.write_all(b"\n")
    }
}

fn main(rt: HostRuntime) -> io::Result<()> {
    stored::replay::<Question, 5>(&rt, rt.stdin(), rt.stdout())
}
