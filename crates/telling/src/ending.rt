// The last lines of a trace: why the run stopped, where, which number lines it skipped, and what it wrote (rules 18.3, 18.4).
ghost use Rattle.std.specs.Prelude.{[], ◌+◌, ◌≤◌, length};
ghost use Rattle.flow.specs.Pointer.{Valid};
ghost use Rattle.machine.specs.Output.{outs_of};
ghost use Rattle.machine.specs.Held.{slices, store_of};
ghost use Rattle.report.specs.Wrote.{Wrote};
ghost use Rattle.telling.specs.Ending.{stop_text, unless_none, skips_text, hidden_text, output_lines, steps_text, place_text, end_lines};
ghost use Rattle.telling.specs.Bounds.{Inside};

use crate::outputs::put_outputs;
use crate::words::{put_pointers, put_stack};
use base::put::put_word;
use machine::{Core, Skips, Stop};
use report::{put_count, put_line};

// Why the run stopped.
fn put_stop(out: &mut [u8], at: usize, stop: Stop) -> usize
    requires { at + 53 ≤ length out.old }
    ensures { Wrote out.old at (stop_text stop) result out.new 53 }
{
    match stop {
        Stop::Completed => put_word(out, at, b"Completed: no attempt is open"),
        Stop::MaxSteps => put_word(out, at, b"MaxSteps: as many steps as the limit"),
        Stop::NeedsInput => {
            put_word(
                out,
                at,
                b"NeedsInput: abstract mode, after an input instruction",
            )
        }
        Stop::StackFull => { put_word(out, at, b"StackFull: the stack's room is used up") }
        Stop::OutputFull => { put_word(out, at, b"OutputFull: the outputs' room is used up") }
        Stop::BadInput => put_word(out, at, b"BadInput: the line to be read is not UTF-8"),
    }
}

// A line of a word and a count; of a count of 0 nothing is said.
fn put_unless_none(out: &mut [u8], at: usize, word: &[u8], n: u64) -> usize
    requires { at + (length word.now + 21) ≤ length out.old }
    ensures { Wrote out.old at (unless_none word.now n) result out.new (length word.now + 21) }
{
    if n == 0 {
        return at;
    }
    put_line(out, at, word, n)
}

// The number lines that were skipped, by the reason (rule 10.9).
fn put_skips(out: &mut [u8], at: usize, skips: Skips) -> usize
    requires { at + 230 ≤ length out.old }
    ensures { Wrote out.old at (skips_text skips) result out.new 230 }
{
    let a = put_unless_none(out, at, b"IntIn found no input left: ", skips.ended);
    let b = put_unless_none(out, a, b"IntIn skipped lines that are blank: ", skips.blank);
    let c = put_unless_none(
        out,
        b,
        b"IntIn skipped lines that are no number: ",
        skips.not_number,
    );
    put_unless_none(
        out,
        c,
        b"IntIn skipped lines that are out of range: ",
        skips.out_of_range,
    )
}

// The moves that have no line.
pub fn put_hidden(out: &mut [u8], at: usize, n: u64) -> usize
    requires { at + 56 ≤ length out.old }
    ensures { Wrote out.old at (hidden_text n) result out.new 56 }
{
    put_unless_none(out, at, b"moves not shown, for lack of room: ", n)
}

// The steps made, and the label of the block where the run stands.
fn put_steps(out: &mut [u8], at: usize, steps: u64, label: &[u8]) -> usize
    requires { (length label.now ≤ 22) × (at + 55 ≤ length out.old) }
    ensures { Wrote out.old at (steps_text steps label.now) result out.new 55 }
{
    let a = put_count(out, at, b"steps ", steps);
    let b = put_word(out, a, b", at ");
    let c = put_word(out, b, label);
    put_word(out, c, b"; ")
}

// The same with the pointers and the stack.
fn put_place(
    out: &mut [u8],
    at: usize,
    steps: u64,
    label: &[u8],
    core: Core,
    stack: &[i64],
) -> usize
    requires depth_in_bounds { (core.depth ≤ length stack.now) × Valid core.pointers }
    requires label_len_bound { (length label.now ≤ 22) × (at + 279 ≤ length out.old) }
    ensures { Wrote out.old at (place_text steps label.now (store_of (slices stack.now [] []) core)) result out.new 279 }
{
    let depth = core.depth;
    let pointers = core.pointers;
    let a = put_steps(out, at, steps, label);
    let b = put_pointers(out, a, pointers);
    let c = put_word(out, b, b"; stack");
    let d = put_stack(out, c, stack, depth);
    put_word(out, d, b"\n")
}

// What the program wrote, after a line that says how many bytes that is. They are written apart first, since their number
// stands before them; 256 outputs of at most 20 bytes have 5,120.
fn put_output_lines(out: &mut [u8], at: usize, kinds: &[u8], values: &[i64], count: usize) -> usize
    requires count_in_bounds { ((count ≤ length kinds.now) × (count ≤ length values.now)) × (count ≤ 256) }
    requires at_in_bounds { at + 5155 ≤ length out.old }
    ensures { Wrote out.old at (output_lines (outs_of kinds.now values.now count)) result out.new 5155 }
{
    let mut written = [0u8; 5120];
    let n = put_outputs(&mut written, 0, kinds, values, count);
    let a = put_count(out, at, b"output ", n as u64);
    let b = put_word(out, a, b" bytes:\n");
    put_word(out, b, &written[..n])
}

// The lines of a run's end.
pub fn put_end(
    out: &mut [u8],
    at: usize,
    stop: Stop,
    steps: u64,
    label: &[u8],
    core: Core,
    stack: &[i64],
    kinds: &[u8],
    values: &[i64],
) -> usize
    requires inside { Inside core (length stack.now) (length kinds.now) (length values.now) }
    requires label_len_bound { ((length label.now ≤ 22) × (core.outputs ≤ 256)) × (at + 6000 ≤ length out.old) }
    ensures { Wrote out.old at (end_lines stop steps label.now (store_of (slices stack.now kinds.now values.now) core)) result out.new 6000 }
{
    let outputs = core.outputs;
    let skips = core.reading.skips;
    let a = put_stop(out, at, stop);
    let b = put_word(out, a, b"\n");
    let c = put_place(out, b, steps, label, core, stack);
    let d = put_skips(out, c, skips);
    put_output_lines(out, d, kinds, values, outputs)
}
