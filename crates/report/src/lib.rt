// The run program's answer, as text in a lent slice of bytes. Each writer takes the index to begin at and returns the one
// after.
#![tactic(auto)]

ghost use Rattle.std.specs.Prelude.{◌≡◌, ◌+◌, ◌*◌, ◌≤◌, nat_abs, length};
ghost use Rattle.base.specs.Lent.{Room, Put};
ghost use Rattle.stack.specs.Stack.{stack_of};
ghost use Rattle.machine.specs.Output.{outs_of};
ghost use Rattle.report.specs.Text.{
  int,
  value,
  letter,
  item,
  values,
  items,
  counted,
  line,
  place_line,
  stack_line,
  out_line,
  result_text,
  refusal_text,
};
ghost use Rattle.report.specs.Fits.{Fits};
ghost use Rattle.report.specs.Wrote.{Wrote};

use base::put::{put_number, put_word};

// What a run came to, in numbers: how it ended, its steps, its pointers, how many cells its stack has and how many outputs
// it made.
#[derive(Clone, Copy)]
pub struct Figures {
    pub status: u64,
    pub steps: u64,
    pub dp: u64,
    pub cc: u64,
    pub depth: usize,
    pub outputs: usize,
}

// A signed number in decimal.
pub fn put_int(out: &mut [u8], at: usize, v: i64) -> usize
    requires { Room out.old at (int v) }
    ensures { Put out.old at (int v) result out.new }
{
    let n = word::abs(v);
    if v < 0 {
        let next = put_word(out, at, b"-");
        return put_number(out, next, n);
    }
    put_number(out, at, n)
}

// A value after a space.
pub fn put_value(out: &mut [u8], at: usize, v: i64) -> usize
    requires { at + 21 ≤ length out.old }
    ensures { Wrote out.old at (value v) result out.new 21 }
{
    let next = put_word(out, at, b" ");
    put_int(out, next, v)
}

// The letter tells the kind, as in `c65`, `i-3` (rule 13.5).
fn put_letter(out: &mut [u8], at: usize, kind: u8) -> usize
    requires { Room out.old at (letter kind) }
    ensures { Put out.old at (letter kind) result out.new }
{
    if kind == 1 {
        return put_word(out, at, b" c");
    }
    put_word(out, at, b" i")
}

// An output after a space: its kind's letter and its number.
pub fn put_item(out: &mut [u8], at: usize, kind: u8, v: i64) -> usize
    requires { at + 22 ≤ length out.old }
    ensures { Wrote out.old at (item kind v) result out.new 22 }
{
    let next = put_letter(out, at, kind);
    put_int(out, next, v)
}

// The cells of a stack below a depth, the top first.
pub fn put_values(out: &mut [u8], at: usize, stack: &[i64], depth: usize) -> usize
    requires { (depth ≤ length stack.now) × (at + 21 * depth ≤ length out.old) }
    ensures { Wrote out.old at (values (stack_of stack.now depth)) result out.new (21 * depth) }
{
    let mut next = at;
    for i in (0..depth).rev() {
        next = put_value(out, next, stack[i]);
    }
    next
}

// The first outputs, in order.
fn put_items(out: &mut [u8], at: usize, kinds: &[u8], numbers: &[i64], count: usize) -> usize
    requires { ((count ≤ length kinds.now) × (count ≤ length numbers.now)) × (at + 22 * count ≤ length out.old) }
    ensures { Wrote out.old at (items (outs_of kinds.now numbers.now count)) result out.new (22 * count) }
{
    let mut next = at;
    for i in 0..count {
        next = put_item(out, next, kinds[i], numbers[i]);
    }
    next
}

// A word and a number.
pub fn put_count(out: &mut [u8], at: usize, word: &[u8], n: u64) -> usize
    requires { at + (length word.now + 20) ≤ length out.old }
    ensures { Wrote out.old at (counted word.now n) result out.new (length word.now + 20) }
{
    let next = put_word(out, at, word);
    put_number(out, next, n)
}

// A line of a word and a number.
pub fn put_line(out: &mut [u8], at: usize, word: &[u8], n: u64) -> usize
    requires { at + (length word.now + 21) ≤ length out.old }
    ensures { Wrote out.old at (line word.now n) result out.new (length word.now + 21) }
{
    let next = put_count(out, at, word, n);
    put_word(out, next, b"\n")
}

// The line `at`: label and pointers.
fn put_place(out: &mut [u8], at: usize, label: &[u8], dp: u64, cc: u64) -> usize
    requires { at + (length label.now + 46) ≤ length out.old }
    ensures { Wrote out.old at (place_line label.now dp cc) result out.new (length label.now + 46) }
{
    let a = put_word(out, at, b"at ");
    let b = put_word(out, a, label);
    let c = put_count(out, b, b" ", dp);
    put_line(out, c, b" ", cc)
}

// The line `stack`.
fn put_stack(out: &mut [u8], at: usize, stack: &[i64], depth: usize) -> usize
    requires { (depth ≤ length stack.now) × (at + (21 * depth + 27) ≤ length out.old) }
    ensures { Wrote out.old at (stack_line (stack_of stack.now depth)) result out.new (21 * depth + 27) }
{
    let a = put_count(out, at, b"stack ", depth as u64);
    let b = put_values(out, a, stack, depth);
    put_word(out, b, b"\n")
}

// The line `out`.
fn put_out(out: &mut [u8], at: usize, kinds: &[u8], numbers: &[i64], count: usize) -> usize
    requires { ((count ≤ length kinds.now) × (count ≤ length numbers.now)) × (at + (22 * count + 25) ≤ length out.old) }
    ensures { Wrote out.old at (out_line (outs_of kinds.now numbers.now count)) result out.new (22 * count + 25) }
{
    let a = put_count(out, at, b"out ", count as u64);
    let b = put_items(out, a, kinds, numbers, count);
    put_word(out, b, b"\n")
}

// The five lines of a run's result, at the start of out.
pub fn put_result(
    out: &mut [u8],
    f: Figures,
    label: &[u8],
    stack: &[i64],
    kinds: &[u8],
    numbers: &[i64],
) -> usize
    requires { Fits (length out.old) (length label.now) f.depth (length stack.now) f.outputs (length kinds.now) (length numbers.now) }
    ensures { Put out.old 0 (result_text f.status f.steps label.now f.dp f.cc (stack_of stack.now f.depth) (outs_of kinds.now numbers.now f.outputs)) result out.new }
{
    let depth = f.depth;
    let count = f.outputs;
    let a = put_line(out, 0, b"status ", f.status);
    let b = put_line(out, a, b"steps ", f.steps);
    let c = put_place(out, b, label, f.dp, f.cc);
    let d = put_stack(out, c, stack, depth);
    put_out(out, d, kinds, numbers, count)
}

// The line of a refusal, at the start of out.
pub fn put_refusal(out: &mut [u8], number: u64) -> usize
    requires { 29 ≤ length out.old }
    ensures { Put out.old 0 (refusal_text number) result out.new }
{
    put_line(out, 0, b"refused ", number)
}
