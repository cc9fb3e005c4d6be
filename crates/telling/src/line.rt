// A line of a trace: one move (rule 18.2).
ghost use Rattle.std.specs.Prelude.{◌+◌, ◌≤◌, length, drop};
ghost use Rattle.base.specs.Text.{decimal};
ghost use Rattle.stack.specs.Stack.{stack_of};
ghost use Rattle.machine.specs.Output.{outs_of};
ghost use Rattle.report.specs.Wrote.{Wrote};
ghost use Rattle.telling.specs.Line.{block_text, took_text, left_text, line_with};
ghost use Rattle.telling.specs.Bounds.{Inside};

use crate::outputs::put_out;
use crate::words::{put_name, put_pointers, put_stack};
use base::put::{put_number, put_word};
use machine::{Core, Op};

// The step's number. A function of its own, since `put_number` promises no bound.
fn put_step(out: &mut [u8], at: usize, step: u64) -> usize
    requires { at + 20 ≤ length out.old }
    ensures { Wrote out.old at (decimal step) result out.new 20 }
{
    put_number(out, at, step)
}

// The step and the label of the block that was left.
fn put_block(out: &mut [u8], at: usize, step: u64, label: &[u8]) -> usize
    requires { (length label.now ≤ 22) × (at + 44 ≤ length out.old) }
    ensures { Wrote out.old at (block_text step label.now) result out.new 44 }
{
    let a = put_step(out, at, step);
    let b = put_word(out, a, b" ");
    let c = put_word(out, b, label);
    put_word(out, c, b" ")
}

// The same with the instruction and the stack that it took.
fn put_took(out: &mut [u8], at: usize, step: u64, label: &[u8], op: Op, took: &[u8]) -> usize
    requires { ((length label.now ≤ 22) × (length took.now ≤ 198)) × (at + 250 ≤ length out.old) }
    ensures { Wrote out.old at (took_text step label.now op took.now) result out.new 250 }
{
    let a = put_block(out, at, step, label);
    let b = put_name(out, a, op);
    let c = put_word(out, b, b":");
    put_word(out, c, took)
}

// What a move left: the stack, the pointers and the new output.
fn put_left(
    out: &mut [u8],
    at: usize,
    stack: &[i64],
    core: Core,
    kinds: &[u8],
    values: &[i64],
    from: usize,
) -> usize
    requires inside { Inside core (length stack.now) (length kinds.now) (length values.now) }
    requires at_in_bounds { at + 249 ≤ length out.old }
    ensures { Wrote out.old at (left_text (stack_of stack.now core.depth) core.pointers (drop from (outs_of kinds.now values.now core.outputs))) result out.new 249 }
{
    let depth = core.depth;
    let outputs = core.outputs;
    let pointers = core.pointers;
    let a = put_word(out, at, b" ->");
    let b = put_stack(out, a, stack, depth);
    let c = put_word(out, b, b"; ");
    let d = put_pointers(out, c, pointers);
    let e = put_out(out, d, kinds, values, from, outputs);
    put_word(out, e, b"\n")
}

// The line of a move. The stack that it took is given as a text, since the instruction changes the slice.
pub fn put_move(
    out: &mut [u8],
    at: usize,
    step: u64,
    label: &[u8],
    op: Op,
    took: &[u8],
    stack: &[i64],
    core: Core,
    kinds: &[u8],
    values: &[i64],
    from: usize,
) -> usize
    requires inside { Inside core (length stack.now) (length kinds.now) (length values.now) }
    requires label_len_bound { ((length label.now ≤ 22) × (length took.now ≤ 198)) × (at + 512 ≤ length out.old) }
    ensures { Wrote out.old at (line_with step label.now op took.now (stack_of stack.now core.depth) core.pointers (drop from (outs_of kinds.now values.now core.outputs))) result out.new 512 }
{
    let next = put_took(out, at, step, label, op, took);
    put_left(out, next, stack, core, kinds, values, from)
}
