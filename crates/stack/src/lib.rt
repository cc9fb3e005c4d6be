// The stack in a lent slice of cells: the bottom is cell 0, and the cells past the depth hold 0. Each function takes the
// depth and returns the new one. A struct of the two would hold a `&mut`, and each function would promise besides that it
// holds the same slice, with as many cells; `Vec` needs a heap.
#![tactic(auto)]

ghost use Rattle.std.specs.Prelude.{◌≡◌, ◌∷◌, ◌<◌, ◌≤◌, length, drop};
ghost use Rattle.std.specs.Int.Signed.{lt_z};
ghost use Rattle.word.specs.Word.{values};
ghost use Rattle.stack.specs.Stack.{Lies, Does, Grows};
ghost use Rattle.stack.specs.Instr as Instr;
ghost use Rattle.stack.specs.Exchange.{exchanged, reversal, three_reversals};

use base::edition::Edition;

// v on top, where there is room. With pop and put the only function that stores one value: all others are made of these.
fn push(stack: &mut [i64], depth: usize, v: i64) -> usize
    requires lies { Lies stack.old depth }
    requires depth_in_bounds { depth < length stack.old }
    ensures { Does (Instr.push v) stack.old depth stack.new result }
{
    stack[depth] = v;
    depth + 1
}

// Pop: the top is gone. Its cell is past the depth then, so it becomes 0.
pub fn pop(stack: &mut [i64], depth: usize) -> usize
    requires { Lies stack.old depth }
    ensures { Does Instr.pop stack.old depth stack.new result }
{
    if depth == 0 {
        return depth;
    }
    stack[depth - 1] = 0;
    depth - 1
}

// v in the place of the top.
fn put(stack: &mut [i64], depth: usize, v: i64) -> usize
    requires lies { Lies stack.old depth }
    requires depth_nonzero { 0 < depth }
    ensures { Does (λ s. v ∷ drop 1 s) stack.old depth stack.new result }
{
    stack[depth - 1] = v;
    depth
}

// v in the place of the two uppermost.
fn replace(stack: &mut [i64], depth: usize, v: i64) -> usize
    requires lies { Lies stack.old depth }
    requires le_depth { 2 ≤ depth }
    ensures { Does (λ s. v ∷ drop 2 s) stack.old depth stack.new result }
{
    let d = pop(stack, depth);
    put(stack, d, v)
}

// The two uppermost are gone.
fn pop_two(stack: &mut [i64], depth: usize) -> usize
    requires lies { Lies stack.old depth }
    requires le_depth { 2 ≤ depth }
    ensures { Does (drop 2) stack.old depth stack.new result }
{
    let d = pop(stack, depth);
    pop(stack, d)
}

// What a Div, Mod or Roll that cannot be done leaves: its two operands are gone, or they stay (rule 16.2).
fn undo(stack: &mut [i64], depth: usize, edition: Edition) -> usize
    requires lies { Lies stack.old depth }
    requires le_depth { 2 ≤ depth }
    ensures { Does (Instr.undone edition) stack.old depth stack.new result }
{
    match edition {
        Edition::Rust => pop_two(stack, depth),
        Edition::Page => depth,
    }
}

// The instructions that take two values and give at most one: one function and one proof for the six.
#[derive(Clone, Copy)]
pub enum Pairing {
    Add,
    Sub,
    Mul,
    Div,
    Mod,
    Gt,
}

// 1 where b is above a, else 0.
fn above(b: i64, a: i64) -> i64
    ensures { result ≡ Instr.bit (lt_z a b) }
{
    i64::from(b > a)
}

// What op gives of b and a: a value, or nothing.
fn combine(op: Pairing, b: i64, a: i64, edition: Edition) -> Option<i64>
    ensures { values result ≡ Instr.combined edition op b a }
{
    match op {
        Pairing::Add => Some(word::wrapping_add(b, a)),
        Pairing::Sub => Some(word::wrapping_sub(b, a)),
        Pairing::Mul => Some(word::wrapping_mul(b, a)),
        Pairing::Div => word::div(b, a),
        Pairing::Mod => word::modulo(b, a, edition),
        Pairing::Gt => Some(above(b, a)),
    }
}

// Add, Sub, Mul, Div, Mod or Gt of the two uppermost, a on top of b (rules 9.3 to 9.6, 16.2, 16.3).
pub fn pair(stack: &mut [i64], depth: usize, op: Pairing, edition: Edition) -> usize
    requires { Lies stack.old depth }
    ensures { Does (Instr.pair edition op) stack.old depth stack.new result }
{
    if depth < 2 {
        return depth;
    }
    let a = stack[depth - 1];
    let b = stack[depth - 2];
    let Some(v) = combine(op, b, a, edition) else {
        return undo(stack, depth, edition);
    };
    replace(stack, depth, v)
}

// Not: a 0 becomes 1, all else 0 (rule 9.6).
pub fn not(stack: &mut [i64], depth: usize) -> usize
    requires { Lies stack.old depth }
    ensures { Does Instr.not stack.old depth stack.new result }
{
    if depth == 0 {
        return depth;
    }
    let a = stack[depth - 1];
    put(stack, depth, i64::from(a == 0))
}

// The top once more, where there is room for it.
fn dup(stack: &mut [i64], depth: usize) -> usize
    requires lies { Lies stack.old depth }
    requires depth_in_bounds { 0 < depth → depth < length stack.old }
    ensures { Does Instr.dup stack.old depth stack.new result }
{
    if depth == 0 {
        return depth;
    }
    let a = stack[depth - 1];
    push(stack, depth, a)
}

// The cells from lo up to hi in the opposite order. The library exchanges them from both ends inward: each cell is written at
// most once.
fn reverse(s: &mut [i64], lo: usize, hi: usize)
    requires { (lo ≤ hi) × (hi ≤ length s.old) }
    ensures { s.new ≡ exchanged (reversal lo hi) s.old }
{
    s[lo..hi].reverse();
}

// The top n values turned by k places: the k uppermost go below the others. Three reversals write each cell at most twice,
// whatever k is, and need no room beside the stack (rule 9.11).
fn turn(stack: &mut [i64], depth: usize, n: usize, k: usize)
    requires lies { Lies stack.old depth }
    requires k_le_n { (k ≤ n) × (n ≤ depth) }
    ensures { stack.new ≡ exchanged (three_reversals depth n k) stack.old }
{
    reverse(stack, depth - n, depth - k);
    reverse(stack, depth - k, depth);
    reverse(stack, depth - n, depth);
}

// Whether a depth n is negative, or above the d values that there are.
fn bad_depth(n: i64, d: usize) -> bool
    ensures { result ≡ Instr.bad_depth n d }
{
    n < 0 || d < n as usize
}

// Roll: a on top of the depth n. Where n is bad the edition says what becomes of the two; else both are gone. a is taken
// modulo n, so that -2^63 needs no case of its own (rules 9.8, 16.2).
pub fn roll(stack: &mut [i64], depth: usize, edition: Edition) -> usize
    requires { Lies stack.old depth }
    ensures { Does (Instr.roll edition) stack.old depth stack.new result }
{
    if depth < 2 {
        return depth;
    }
    let a = stack[depth - 1];
    let n = stack[depth - 2];
    if bad_depth(n, depth - 2) {
        return undo(stack, depth, edition);
    }
    let d = pop_two(stack, depth);
    let m = n as usize;
    if m == 0 {
        return d;
    }
    let k = word::residue(a, m as u64) as usize;
    turn(stack, d, m, k);
    d
}

// Push: v on top, with the depth after it, or nothing where there is no room.
pub fn grow(stack: &mut [i64], depth: usize, v: i64) -> Option<usize>
    requires { Lies stack.old depth }
    ensures { Grows (Instr.push v) stack.old depth stack.new result }
{
    if depth == stack.len() {
        return None;
    }
    Some(push(stack, depth, v))
}

// Dup: the top once more, likewise. An empty stack needs no room, even in an empty slice.
pub fn double(stack: &mut [i64], depth: usize) -> Option<usize>
    requires { Lies stack.old depth }
    ensures { Grows Instr.dup stack.old depth stack.new result }
{
    if depth == 0 {
        return Some(depth);
    }
    if depth == stack.len() {
        return None;
    }
    Some(dup(stack, depth))
}
