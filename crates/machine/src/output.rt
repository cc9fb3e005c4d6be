// Outputs: CharOut and IntOut, each with the depth and the number of outputs that it leaves, or nothing where there is no room
// for it. Both slices are tested for room before anything is written, so that a step which cannot be kept leaves every cell.
ghost use Rattle.std.specs.Prelude.{◌∷◌, [], ◌<◌, length};
ghost use Rattle.stack.specs.Stack.{Lies};
ghost use Rattle.machine.specs.Output.{Holds, Writes, Puts, int_out, char_out};

// One output more, where there is room. Its kind is a number, as C has it in the cell.
fn emit(kinds: &mut [u8], values: &mut [i64], n: usize, kind: u8, v: i64) -> usize
    requires holds { Holds kinds.old values.old n }
    requires n_in_bounds { (n < length kinds.old) × (n < length values.old) }
    ensures { Writes (record { kind = kind; value = v } ∷ []) kinds.old values.old n kinds.new values.new result }
{
    kinds[n] = kind;
    values[n] = v;
    n + 1
}

// An output in the place of the top, where both slices have a cell for it.
fn put_out(
    stack: &mut [i64],
    depth: usize,
    kinds: &mut [u8],
    values: &mut [i64],
    n: usize,
    kind: u8,
    v: i64,
) -> Option<(usize, usize)>
    requires lies { Lies stack.old depth }
    requires holds { Holds kinds.old values.old n }
    requires depth_nonzero { 0 < depth }
    ensures { Puts (λ _. record { kind = kind; value = v } ∷ []) stack.old depth kinds.old values.old n stack.new kinds.new values.new result }
{
    if n == kinds.len() {
        return None;
    }
    if n == values.len() {
        return None;
    }
    let m = emit(kinds, values, n, kind, v);
    Some((stack::pop(stack, depth), m))
}

// IntOut: the top, as a number.
pub fn int_out(
    stack: &mut [i64],
    depth: usize,
    kinds: &mut [u8],
    values: &mut [i64],
    n: usize,
) -> Option<(usize, usize)>
    requires lies { Lies stack.old depth }
    requires holds { Holds kinds.old values.old n }
    ensures { Puts int_out stack.old depth kinds.old values.old n stack.new kinds.new values.new result }
{
    if depth == 0 {
        return Some((depth, n));
    }
    let v = stack[depth - 1];
    put_out(stack, depth, kinds, values, n, 2, v)
}

// CharOut: the low 32 bits of the top, where they are a scalar (rule 9.9). What emits nothing needs no output cell (rule 11.7).
pub fn char_out(
    stack: &mut [i64],
    depth: usize,
    kinds: &mut [u8],
    values: &mut [i64],
    n: usize,
) -> Option<(usize, usize)>
    requires lies { Lies stack.old depth }
    requires holds { Holds kinds.old values.old n }
    ensures { Puts char_out stack.old depth kinds.old values.old n stack.new kinds.new values.new result }
{
    if depth == 0 {
        return Some((depth, n));
    }
    let u = word::low32(stack[depth - 1]);
    if text::utf8::is_scalar(u) {
        return put_out(stack, depth, kinds, values, n, 1, u as i64);
    }
    Some((stack::pop(stack, depth), n))
}
