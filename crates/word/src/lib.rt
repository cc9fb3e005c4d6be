// The machine's numbers: i64 as the Rust release build has it, with contracts over the integers. Mod alone goes by the
// edition.
#![tactic(auto)]

ghost use Rattle.std.specs.Prelude.{◌≡◌, ◌+◌, ◌-◌, ◌*◌, ◌%◌, ◌^◌, ◌<◌, ◌≤◌, pos, ◌+ℤ◌, ◌-ℤ◌, ◌*ℤ◌, ◌≢◌, unsigned_abs};
ghost use Rattle.word.specs.Word.{residue, signed64, wrap, values, quotient};
ghost use Rattle.word.specs.Word.{floor_quotient, rust_remainder, page_remainder, remainder};

use base::edition::Edition;

// The 64 bits of x.
pub fn bits(x: i64) -> u64
    ensures { result ≡ residue x (2 ^ 64) }
{
    x.cast_unsigned()
}

// The number whose 64 bits are u.
pub fn from_bits(u: u64) -> i64
    ensures { result ≡ signed64 u }
{
    u.cast_signed()
}

// b + a, wrapped.
pub fn wrapping_add(b: i64, a: i64) -> i64
    ensures { result ≡ wrap (b +ℤ a) }
{
    b.wrapping_add(a)
}

// b - a, wrapped.
pub fn wrapping_sub(b: i64, a: i64) -> i64
    ensures { result ≡ wrap (b -ℤ a) }
{
    b.wrapping_sub(a)
}

// b * a, wrapped.
pub fn wrapping_mul(b: i64, a: i64) -> i64
    ensures { result ≡ wrap (b *ℤ a) }
{
    b.wrapping_mul(a)
}

// Div: b divided by a, rounded toward zero; by 0 nothing. -2^63 / -1 wraps to -2^63, where the Rust panics.
pub fn div(b: i64, a: i64) -> Option<i64>
    ensures { values result ≡ quotient b a }
{
    if a == 0 {
        return None;
    }
    Some(b.wrapping_div(a))
}

// |a|, which may be 2^63.
pub fn abs(a: i64) -> u64
    ensures { result ≡ unsigned_abs a }
{
    a.unsigned_abs()
}

// b modulo m, never negative.
pub fn residue(b: i64, m: u64) -> u64
    requires { (0 < m) × (m < 2 ^ 63) }
    ensures { result ≡ residue b m }
{
    b.rem_euclid(m as i64) as u64
}

// b modulo |a|, never negative; by 0 nothing, and by -2^63 nothing, since |-2^63| wraps to -2^63 in the Rust.
fn modulo_rust(b: i64, a: i64) -> Option<i64>
    ensures { values result ≡ rust_remainder b a }
{
    let m = abs(a);
    if m == 0 {
        return None;
    }
    if m == 0x8000_0000_0000_0000 {
        return None;
    }
    Some(residue(b, m) as i64)
}

// b - a × floor(b / a): b's remainder by a, and one a more where that lies on the other side of 0 than a. By -1 the remainder
// is 0, also at -2^63, where the division overflows.
fn floor_rem(b: i64, a: i64) -> i64
    requires { a ≢ pos 0 }
    ensures { result ≡ b -ℤ a *ℤ floor_quotient b a }
{
    let r = b.wrapping_rem(a);
    if a < 0 {
        if r > 0 {
            return r + a;
        }
        return r;
    }
    if r < 0 {
        return r + a;
    }
    r
}

// What b / a rounded down leaves of b: 0, or of a's sign and nearer to 0 than a; by 0 nothing (rule 16.3).
fn modulo_page(b: i64, a: i64) -> Option<i64>
    ensures { values result ≡ page_remainder b a }
{
    if a == 0 {
        return None;
    }
    Some(floor_rem(b, a))
}

// Mod: the remainder of b by a, as the edition has it.
pub fn modulo(b: i64, a: i64, edition: Edition) -> Option<i64>
    ensures { values result ≡ remainder edition b a }
{
    match edition {
        Edition::Rust => modulo_rust(b, a),
        Edition::Page => modulo_page(b, a),
    }
}

// n modulo 4, never negative: quarter turns. One expression, and so is modulo_2: a const parameter would be no shorter.
pub fn modulo_4(n: i64) -> u8
    ensures { result ≡ residue n 4 }
{
    (bits(n) % 4) as u8
}

// n modulo 2, never negative: flips.
pub fn modulo_2(n: i64) -> u8
    ensures { result ≡ residue n 2 }
{
    (bits(n) % 2) as u8
}

// The low 32 bits of x.
pub fn low32(x: i64) -> u32
    ensures { result ≡ residue x (2 ^ 32) }
{
    residue(x, 0x1_0000_0000) as u32
}
