// The words of a trace: instructions, pointers, a stack (rule 18.2).
ghost use Rattle.std.specs.Prelude.{◌+◌, ◌<◌, ◌≤◌, length};
ghost use Rattle.flow.specs.Pointer.{Valid};
ghost use Rattle.stack.specs.Stack.{stack_of};
ghost use Rattle.machine.specs.declared.Op.TheVariants as instruction;
ghost use Rattle.report.specs.Wrote.{Wrote};
ghost use Rattle.telling.specs.Words.{name_of, dp_word, cc_word, pointers_text, others, stack_text};

use base::put::put_word;
use flow::PointerState;
use machine::Op;
use report::{put_count, put_values};
use stack::Pairing;

// How many values of a stack are shown.
const SHOWN: usize = 8;

// The name of an instruction on two values.
fn put_pairing(out: &mut [u8], at: usize, pairing: Pairing) -> usize
    requires { at + 3 ≤ length out.old }
    ensures { Wrote out.old at (name_of (instruction.Pair pairing)) result out.new 3 }
{
    match pairing {
        Pairing::Add => put_word(out, at, b"Add"),
        Pairing::Sub => put_word(out, at, b"Sub"),
        Pairing::Mul => put_word(out, at, b"Mul"),
        Pairing::Div => put_word(out, at, b"Div"),
        Pairing::Mod => put_word(out, at, b"Mod"),
        Pairing::Gt => put_word(out, at, b"Gt"),
    }
}

// An instruction's name.
pub(crate) fn put_name(out: &mut [u8], at: usize, op: Op) -> usize
    requires { at + 7 ≤ length out.old }
    ensures { Wrote out.old at (name_of op) result out.new 7 }
{
    match op {
        Op::Nothing => put_word(out, at, b"none"),
        Op::Push => put_word(out, at, b"Push"),
        Op::Pop => put_word(out, at, b"Pop"),
        Op::Pair(pairing) => put_pairing(out, at, pairing),
        Op::Not => put_word(out, at, b"Not"),
        Op::Ptr => put_word(out, at, b"Ptr"),
        Op::Swi => put_word(out, at, b"Swi"),
        Op::Dup => put_word(out, at, b"Dup"),
        Op::Roll => put_word(out, at, b"Roll"),
        Op::CharIn => put_word(out, at, b"CharIn"),
        Op::CharOut => put_word(out, at, b"CharOut"),
        Op::IntIn => put_word(out, at, b"IntIn"),
        Op::IntOut => put_word(out, at, b"IntOut"),
    }
}

// The direction that dp points in.
fn put_dp(out: &mut [u8], at: usize, dp: u8) -> usize
    requires { (dp < 4) × (at + 5 ≤ length out.old) }
    ensures { Wrote out.old at (dp_word dp) result out.new 5 }
{
    match dp {
        0 => put_word(out, at, b"right"),
        1 => put_word(out, at, b"down"),
        2 => put_word(out, at, b"left"),
        _ => put_word(out, at, b"up"),
    }
}

// The side that cc chooses.
fn put_cc(out: &mut [u8], at: usize, cc: u8) -> usize
    requires { (cc < 2) × (at + 5 ≤ length out.old) }
    ensures { Wrote out.old at (cc_word cc) result out.new 5 }
{
    if cc == 0 {
        return put_word(out, at, b"left");
    }
    put_word(out, at, b"right")
}

// The pointers, as `dp right, cc left`.
pub(crate) fn put_pointers(out: &mut [u8], at: usize, p: PointerState) -> usize
    requires { Valid p × (at + 18 ≤ length out.old) }
    ensures { Wrote out.old at (pointers_text p) result out.new 18 }
{
    let a = put_word(out, at, b"dp ");
    let b = put_dp(out, a, p.dp);
    let c = put_word(out, b, b", cc ");
    put_cc(out, c, p.cc)
}

// How many values are not shown.
fn put_others(out: &mut [u8], at: usize, n: u64) -> usize
    requires { at + 30 ≤ length out.old }
    ensures { Wrote out.old at (others n) result out.new 30 }
{
    if n == 0 {
        return at;
    }
    let a = put_count(out, at, b" and ", n);
    put_word(out, a, b" more")
}

// A stack, its top first: the first eight values, and how many more there are.
pub fn put_stack(out: &mut [u8], at: usize, stack: &[i64], depth: usize) -> usize
    requires { (depth ≤ length stack.now) × (at + 198 ≤ length out.old) }
    ensures { Wrote out.old at (stack_text (stack_of stack.now depth)) result out.new 198 }
{
    if depth == 0 {
        return put_word(out, at, b" empty");
    }
    if depth <= SHOWN {
        return put_values(out, at, stack, depth);
    }
    let hidden = depth - SHOWN;
    let next = put_values(out, at, &stack[hidden..depth], SHOWN);
    put_others(out, next, hidden as u64)
}
