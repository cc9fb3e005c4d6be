// The trace of a job's run: a line a move, and its end, as text in a lent slice.
#![tactic(auto)]

ghost use Rattle.std.specs.Prelude.{◌≡◌, min, ◌+◌, ◌^◌, ◌<◌, ◌≤◌, length};
ghost use Rattle.machine.specs.Machine.{given, given_of, JudgedIn};
ghost use Rattle.machine.specs.Held.{slices, store_of};
ghost use Rattle.interpreter.specs.Outcome.{job_of};
ghost use Rattle.interpreter.specs.Resume.{machine_of, Placed};
ghost use Rattle.job.specs.Outcome.{Reads, content_of};
ghost use Rattle.answer.specs.Program.{asked_of, Prints};
ghost use Rattle.report.specs.Wrote.{Wrote};
ghost use Rattle.answer.specs.Printing.{HasLabel, label_in};
ghost use Rattle.telling.specs.Bounds.{Inside};
ghost use Rattle.telling.specs.Ending.{end_lines};
ghost use Rattle.trace.specs.Trace.{most_lines, trace_room, Traced, Outcome};
ghost use Rattle.trace.specs.Told.{Goes, Steps, Tellable, Tells, Endable, Ends};

use answer::{label_region, run_parts};
use base::edition::Edition;
use interpreter::{Ended, GoodTable, State, begin, step};
use job::Parts;
use machine::{Op, Terms};
use piet::run_picture::Pictured;
use report::put_refusal;
use table::instruction_of;
use telling::ending::{put_end, put_hidden};
use telling::line::put_move;
use telling::words::put_stack;

// Room for the longest text: a line for each of the most moves, and the end.
const ROOM: usize = 524288;

// The most moves that have a line.
const MOST_LINES: u64 = 1000;

// Where a run stands after a move, and the index after the move's line.
#[derive(Clone, Copy)]
pub(crate) struct Shown {
    pub at: State,
    pub end: usize,
}

// How many of so many moves have a line.
fn lines_of(moves: u64) -> u64
    ensures { result ≡ min most_lines moves }
{
    if moves < MOST_LINES {
        return moves;
    }
    MOST_LINES
}

// One step and its line. The stack that it takes is told before it is made.
fn put_step(
    out: &mut [u8],
    end: usize,
    table: GoodTable,
    terms: Terms,
    input: &[u8],
    stack: &mut [i64],
    kinds: &mut [u8],
    values: &mut [i64],
    at: State,
) -> Shown
    requires placed { Placed table.n (slices stack.old kinds.old values.old) at }
    requires judged_in { JudgedIn (given terms input.now) at.core.reading }
    requires steps_bound { (at.steps + 1 < 2 ^ 64) × (end + 512 ≤ length out.old) }
    requires has_label { HasLabel table.rows.now at.region }
    requires goes { Goes (job_of table.rows.now table.exits.now (given terms input.now) (slices stack.old kinds.old values.old)) (machine_of (slices stack.old kinds.old values.old) at) }
    ensures { Steps table.entry.n table.entry.rows.now table.entry.exits.now (given terms input.now) (slices stack.old kinds.old values.old) at (slices stack.new kinds.new values.new) out.old end result out.new }
{
    let core = at.core;
    let mut took = [0u8; 198];
    let size = put_stack(&mut took, 0, stack, core.depth);
    let moved = step(table, terms, input, stack, kinds, values, at).unwrap();
    let next = moved.next;
    let mut label = [0u8; 22];
    let named = label_region(table.rows, at.region as usize, &mut label);
    let op = Op::from(instruction_of(moved.by));
    let after = put_move(
        out,
        end,
        next.steps,
        &label[..named],
        op,
        &took[..size],
        stack,
        next.core,
        kinds,
        values,
        core.outputs,
    );
    Shown {
        at: next,
        end: after,
    }
}

// The lines of the first moves of a run from the start.
fn put_moves(
    out: &mut [u8],
    shown: u64,
    table: GoodTable,
    terms: Terms,
    input: &[u8],
    stack: &mut [i64],
    kinds: &mut [u8],
    values: &mut [i64],
) -> usize
    requires { Tellable table.n table.rows.now table.exits.now (given terms input.now) (slices stack.old kinds.old values.old) (length out.old) shown }
    ensures { Tells table.entry.rows.now table.entry.exits.now (given terms input.now) (slices stack.old kinds.old values.old) shown out.old result out.new }
{
    let mut at = begin(stack, kinds, values);
    let mut end = 0;
    while at.steps < shown {
        let told = put_step(out, end, table, terms, input, stack, kinds, values, at);
        at = told.at;
        end = told.end;
    }
    end
}

// The lines of where a run ended.
fn put_ended(
    out: &mut [u8],
    at: usize,
    rows: &[u32],
    e: Ended,
    stack: &[i64],
    kinds: &[u8],
    values: &[i64],
) -> usize
    requires has_label { HasLabel rows.now e.at.region }
    requires inside { Inside e.at.core (length stack.now) (length kinds.now) (length values.now) }
    requires outputs_bound { (e.at.core.outputs ≤ 256) × (at + 6000 ≤ length out.old) }
    ensures { Wrote out.old at (end_lines e.stop e.at.steps (label_in rows.now e.at.region) (store_of (slices stack.now kinds.now values.now) e.at.core)) result out.new 6000 }
{
    let stop = e.stop;
    let place = e.at;
    let mut label = [0u8; 22];
    let named = label_region(rows, place.region as usize, &mut label);
    put_end(
        out,
        at,
        stop,
        place.steps,
        &label[..named],
        place.core,
        stack,
        kinds,
        values,
    )
}

// The trace of a run that ended: its first moves, made again in slices of their own, how many more there are, and its end.
fn put_trace(
    out: &mut [u8],
    table: GoodTable,
    terms: Terms,
    input: &[u8],
    e: Ended,
    stack: &[i64],
    kinds: &[u8],
    values: &[i64],
) -> usize
    requires { Endable table.n table.rows.now table.exits.now (given terms input.now) (slices stack.now kinds.now values.now) e (length out.old) }
    ensures { Ends table.entry.rows.now table.entry.exits.now (given terms input.now) (slices stack.now kinds.now values.now) out.old result out.new }
{
    let mut stack_again = [0i64; 256];
    let mut kinds_again = [0u8; 256];
    let mut values_again = [0i64; 256];
    let place = e.at;
    let steps = place.steps;
    let shown = lines_of(steps);
    let told = put_moves(
        out,
        shown,
        table,
        terms,
        input,
        &mut stack_again,
        &mut kinds_again,
        &mut values_again,
    );
    let hidden = put_hidden(out, told, steps - shown);
    put_ended(out, hidden, table.rows, e, stack, kinds, values)
}

// The same, with the run's terms and its input as parts of the job.
fn trace_parts(
    job: &[u8],
    out: &mut [u8],
    p: Parts,
    table: GoodTable,
    e: Ended,
    stack: &[i64],
    kinds: &[u8],
    values: &[i64],
) -> usize
    requires reads { Reads job.now p }
    requires endable { Endable table.n table.rows.now table.exits.now (given_of (asked_of (content_of job.now p)).asks) (slices stack.now kinds.now values.now) e (length out.old) }
    ensures { Ends table.entry.rows.now table.entry.exits.now (given_of (asked_of (content_of job.now p)).asks) (slices stack.now kinds.now values.now) out.old result out.new }
{
    let input = p.input;
    let end = p.end;
    let terms = Terms {
        edition: Edition::Rust,
        limit: p.limit,
        abstract_mode: p.abstracted,
    };
    put_trace(out, table, terms, &job[input..end], e, stack, kinds, values)
}

// The trace of a job that was read, with room for 512 pixels, 256 stack cells and 256 outputs.
fn trace_job(job: &[u8], out: &mut [u8], p: Parts) -> usize
    requires { (trace_room ≤ length out.old) × Reads job.now p }
    ensures { Prints Traced job.now out.old result out.new }
{
    let mut colours = [0u8; 512];
    let mut map = [0u32; 512];
    let mut rows = [0u32; 2560];
    let mut exits = [0u32; 4096];
    let mut work = [0u32; 512];
    let mut stack = [0i64; 256];
    let mut kinds = [0u8; 256];
    let mut values = [0i64; 256];
    let pictured = run_parts(
        job,
        p,
        &mut colours,
        &mut map,
        &mut rows,
        &mut exits,
        &mut work,
        &mut stack,
        &mut kinds,
        &mut values,
    );
    match pictured {
        Ok(Pictured { ended, regions }) => {
            let table = GoodTable {
                n: regions,
                rows: &rows,
                exits: &exits,
            };
            trace_parts(job, out, p, table, ended, &stack, &kinds, &values)
        }
        Err(refusal) => put_refusal(out, refusal.number() as u64),
    }
}

// The trace of a job, and its length; nothing where there is too little room for the longest one.
pub fn trace(job: &[u8], out: &mut [u8]) -> usize
    ensures { Outcome job.now out.old result out.new }
{
    if out.len() < ROOM {
        return 0;
    }
    match job::read_job(job) {
        Ok(p) => trace_job(job, out, p),
        Err(refusal) => put_refusal(out, refusal.number() as u64),
    }
}
