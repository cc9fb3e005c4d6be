// White space by the code point, and a line without it at its ends (rules 10.3, 10.5).
ghost use Rattle.std.specs.Prelude.{◌≡◌, ◌<◌, ◌≤◌, length};
ghost use Rattle.text.specs.Ends.{Front, Back, LastStart};
ghost use Rattle.text.specs.Trim.{Trims};
ghost use Rattle.text.specs.White.{white_space};

use crate::utf8::{Decoded, decode, is_utf8, tail_at};

// The white space of rule 10.5.
pub fn is_white(cp: u32) -> bool
    ensures { result ≡ white_space cp }
{
    match cp {
        0x09..=0x0D
        | 0x20
        | 0x85
        | 0xA0
        | 0x1680
        | 0x2000..=0x200A
        | 0x2028
        | 0x2029
        | 0x202F
        | 0x205F
        | 0x3000 => true,
        _ => false,
    }
}

// Where the white space at the front of the line ends.
fn white_front(line: &[u8]) -> usize
    ensures { Front line.now result }
{
    // a step is a character's length, so this is no `for`
    let mut i = 0;
    while i < line.len() {
        let Decoded::Char { cp, next } = decode(line, i) else {
            return i;
        };
        if is_white(cp) {
            i = next;
        } else {
            return i;
        }
    }
    i
}

// Where the last character before `end` begins, back over continuation bytes.
fn last_start(s: &[u8], end: usize) -> usize
    requires { (0 < end) × (end ≤ length s.now) }
    ensures { LastStart s.now end result }
{
    for k in (1..end).rev() {
        if tail_at(s, k).is_none() {
            return k;
        }
    }
    0
}

// Where the white space at the back of the line begins.
fn white_back(line: &[u8]) -> usize
    ensures { Back line.now result }
{
    // a step is a character's length, so this is no `for`
    let mut e = line.len();
    while 0 < e {
        let k = last_start(line, e);
        let Decoded::Char { cp, next: _ } = decode(line, k) else {
            return e;
        };
        if is_white(cp) {
            e = k;
        } else {
            return e;
        }
    }
    e
}

// The trimmed line, a part of the lent one. A line that is not UTF-8 has no characters to trim, and stays whole.
pub fn trim(line: &[u8]) -> &[u8]
    ensures { Trims line.now result.now }
{
    if is_utf8(line) {
        let a = white_front(line);
        let rest = &line[a..];
        let e = white_back(rest);
        &rest[..e]
    } else {
        line
    }
}
