// Outputs as text: as the program wrote them (rule 18.4), and one of them in a line of a trace (rule 18.2).
ghost use Rattle.std.specs.Prelude.{◌≡◌, ◌∷◌, [], ◌+◌, ◌*◌, ◌<◌, ◌≤◌, length, drop};
ghost use Rattle.text.specs.Utf8.{tail_byte, bytes3, bytes4, encode};
ghost use Rattle.machine.specs.Output.{outs_of};
ghost use Rattle.report.specs.Wrote.{Wrote};
ghost use Rattle.telling.specs.Outputs.{control, emit_text, output_text, quoted, shown, out_text};
ghost use Rattle.telling.specs.Bounds.{Names};

use base::put::put_word;
use report::{put_int, put_item, put_value};
use text::utf8::is_scalar;

// The kind of an output that is a character.
const CHARACTER: u8 = 1;

// One byte.
fn put_byte(out: &mut [u8], at: usize, b: u32) -> usize
    requires { (b < 256) × (at + 1 ≤ length out.old) }
    ensures { Wrote out.old at (b ∷ []) result out.new 1 }
{
    out[at] = b as u8;
    at + 1
}

// A continuation byte: the last six bits of n.
fn put_tail(out: &mut [u8], at: usize, n: u32) -> usize
    requires { at + 1 ≤ length out.old }
    ensures { Wrote out.old at (tail_byte n ∷ []) result out.new 1 }
{
    put_byte(out, at, 0x80 + n % 64)
}

// A code point of more than 16 bits.
fn put_widest(out: &mut [u8], at: usize, c: u32) -> usize
    requires { (c < 0x110000) × (at + 4 ≤ length out.old) }
    ensures { Wrote out.old at (bytes4 c) result out.new 4 }
{
    let a = put_byte(out, at, 0xF0 + c / 262144);
    let b = put_tail(out, a, c / 4096);
    let d = put_tail(out, b, c / 64);
    put_tail(out, d, c)
}

// A code point of 12 to 16 bits.
fn put_wide(out: &mut [u8], at: usize, c: u32) -> usize
    requires { (c < 0x10000) × (at + 3 ≤ length out.old) }
    ensures { Wrote out.old at (bytes3 c) result out.new 3 }
{
    let a = put_byte(out, at, 0xE0 + c / 4096);
    let b = put_tail(out, a, c / 64);
    put_tail(out, b, c)
}

// The bytes of a code point in UTF-8.
fn put_scalar(out: &mut [u8], at: usize, c: u32) -> usize
    requires { (c < 0x110000) × (at + 4 ≤ length out.old) }
    ensures { Wrote out.old at (encode c) result out.new 4 }
{
    if c < 0x80 {
        return put_byte(out, at, c);
    }
    if c < 0x800 {
        let next = put_byte(out, at, 0xC0 + c / 64);
        return put_tail(out, next, c);
    }
    if c < 0x10000 {
        return put_wide(out, at, c);
    }
    put_widest(out, at, c)
}

// Which character a value is, if any: a Unicode scalar; a number below 0 or past the last code point is none.
fn character_of(v: i64) -> Option<u32>
    ensures { Names v result }
{
    if v < 0 {
        return None;
    }
    let n = word::abs(v);
    if 0x10FFFF < n {
        return None;
    }
    let c = n as u32;
    if is_scalar(c) {
        return Some(c);
    }
    None
}

// A control character would move a terminal's cursor.
fn is_control(c: u32) -> bool
    ensures { result ≡ control c }
{
    if c < 32 {
        return true;
    }
    if c < 127 {
        return false;
    }
    c <= 159
}

// An output as it is written: a character by its bytes, a number in decimal.
fn put_emit(out: &mut [u8], at: usize, kind: u8, v: i64) -> usize
    requires { at + 20 ≤ length out.old }
    ensures { Wrote out.old at (emit_text kind v) result out.new 20 }
{
    if kind != CHARACTER {
        return put_int(out, at, v);
    }
    let Some(c) = character_of(v) else {
        return at;
    };
    put_scalar(out, at, c)
}

// The first outputs, one after the other, with nothing between them.
pub(crate) fn put_outputs(
    out: &mut [u8],
    at: usize,
    kinds: &[u8],
    values: &[i64],
    count: usize,
) -> usize
    requires { ((count ≤ length kinds.now) × (count ≤ length values.now)) × (at + 20 * count ≤ length out.old) }
    ensures { Wrote out.old at (output_text (outs_of kinds.now values.now count)) result out.new (20 * count) }
{
    let mut next = at;
    for i in 0..count {
        next = put_emit(out, next, kinds[i], values[i]);
    }
    next
}

// A character between quotes, after a blank.
fn put_quoted(out: &mut [u8], at: usize, c: u32) -> usize
    requires { (c < 0x110000) × (at + 7 ≤ length out.old) }
    ensures { Wrote out.old at (quoted (encode c)) result out.new 7 }
{
    let a = put_word(out, at, b" '");
    let b = put_scalar(out, a, c);
    put_word(out, b, b"'")
}

// An output after a blank: a number, a character in quotes, or its number, as ` c10`, where it cannot be shown.
fn put_shown(out: &mut [u8], at: usize, kind: u8, v: i64) -> usize
    requires { at + 22 ≤ length out.old }
    ensures { Wrote out.old at (shown kind v) result out.new 22 }
{
    if kind != CHARACTER {
        return put_value(out, at, v);
    }
    let Some(c) = character_of(v) else {
        return put_item(out, at, CHARACTER, v);
    };
    if is_control(c) {
        return put_item(out, at, CHARACTER, v);
    }
    put_quoted(out, at, c)
}

// The first of the outputs from an index on, where there is one.
pub(crate) fn put_out(
    out: &mut [u8],
    at: usize,
    kinds: &[u8],
    values: &[i64],
    from: usize,
    to: usize,
) -> usize
    requires { ((to ≤ length kinds.now) × (to ≤ length values.now)) × (at + 27 ≤ length out.old) }
    ensures { Wrote out.old at (out_text (drop from (outs_of kinds.now values.now to))) result out.new 27 }
{
    if to <= from {
        return at;
    }
    let next = put_word(out, at, b"; out");
    put_shown(out, next, kinds[from], values[from])
}
