// UTF-8: which bytes are characters (rule 10.6). BadInput (rule 11.6) and CharOut's test of a scalar (rule 9.9) rest on it.
ghost use Rattle.std.specs.Prelude.{◌≡◌, ◌<◌, length, get_or};
ghost use Rattle.base.specs.Decides.{Decides};
ghost use Rattle.text.specs.LongChar.{FirstByte, TailAt};
ghost use Rattle.text.specs.Utf8.{scalar, Reads, Valid};

// What stands at a place of the bytes. Three cases, and so neither an Option nor a Result.
#[derive(Clone, Copy)]
pub enum Decoded {
    // The character cp, with the place after it.
    Char { cp: u32, next: usize },
    // Bytes that begin no character.
    Bad,
    // The end of the bytes.
    End,
}

// A function of its own, so that a read of a byte asks no proof that the byte fits.
pub(crate) fn wide(b: u8) -> u32
    ensures { result ≡ b }
{
    b as u32
}

// What a byte after the first of a character carries, at `i`: six bits, or it is no such byte.
pub(crate) fn tail_at(s: &[u8], i: usize) -> Option<u32>
    ensures { TailAt s.now i result }
{
    if s.len() <= i {
        return None;
    }
    let b = wide(s[i]);
    if b < 0x80 {
        return None;
    }
    if b < 0xC0 { Some(b - 0x80) } else { None }
}

// A character whose first byte has the bits `high` and is followed by `more` continuation bytes. One that fits fewer bytes,
// below `least`, is overlong.
fn decode_long(s: &[u8], at: usize, high: u32, more: usize, least: u32) -> Decoded
    requires { (at < length s.now) × FirstByte (get_or s.now at 0) high more least }
    ensures { Reads s.now at result }
{
    let mut cp = high;
    for i in 0..more {
        let Some(x) = tail_at(s, at + (i + 1)) else {
            return Decoded::Bad;
        };
        cp = cp * 64 + x;
    }
    if cp < least {
        return Decoded::Bad;
    }
    if is_scalar(cp) {
        return Decoded::Char {
            cp,
            next: at + more + 1,
        };
    }
    Decoded::Bad
}

// The character at `at`: its first byte says how many bytes it has.
pub fn decode(s: &[u8], at: usize) -> Decoded
    ensures { Reads s.now at result }
{
    if s.len() <= at {
        return Decoded::End;
    }
    let b = wide(s[at]);
    if b < 0x80 {
        return Decoded::Char {
            cp: b,
            next: at + 1,
        };
    }
    if b < 0xC0 {
        return Decoded::Bad;
    }
    if b < 0xE0 {
        return decode_long(s, at, b - 0xC0, 1, 0x80);
    }
    if b < 0xF0 {
        return decode_long(s, at, b - 0xE0, 2, 0x800);
    }
    decode_long(s, at, b - 0xF0, 3, 0x10000)
}

// Whether the bytes are UTF-8: characters one after another, to the end.
pub fn is_utf8(line: &[u8]) -> bool
    ensures { Decides (Valid line.now) result }
{
    // a step is a character's length, so this is no `for`
    let mut i = 0;
    while i < line.len() {
        let Decoded::Char { cp: _, next } = decode(line, i) else {
            return false;
        };
        i = next;
    }
    true
}

// Whether a number is a Unicode scalar, as CharOut asks (rule 9.9).
pub fn is_scalar(n: u32) -> bool
    ensures { result ≡ scalar n }
{
    if n < 0xD800 {
        return true;
    }
    if n < 0xE000 {
        return false;
    }
    n < 0x110000
}
