// Reading a P6 file into lent pixels.
ghost use Rattle.netpbm.specs.Scan.{Heads};
ghost use Rattle.netpbm.specs.Reads.{Outcome};

use crate::field::{field_at, is_header_white};
use base::limits::wrong_side;
use base::put::put_word;
use base::refusal::Refusal;

// The size of a picture.
#[derive(Clone, Copy)]
pub struct Sides {
    pub height: usize,
    pub width: usize,
}

// What stands before the pixels: the sides, up to the cap of a field's value, and where the pixels start.
#[derive(Clone, Copy)]
pub struct Heading {
    pub height: usize,
    pub width: usize,
    pub start: usize,
}

// `P6`, 0x50 and 0x36, and what has to follow it.
fn heading_of(file: &[u8]) -> Option<Heading>
    ensures { Heads file.now result }
{
    if file.len() < 2 {
        return None;
    }
    if file[0] != 0x50 {
        return None;
    }
    if file[1] != 0x36 {
        return None;
    }
    let width = field_at(file, 2)?;
    let height = field_at(file, width.next)?;
    let maximum = field_at(file, height.next)?;
    if maximum.value != 255 {
        return None;
    }
    let last = maximum.next;
    if last == file.len() {
        return None;
    }
    if !is_header_white(file[last]) {
        return None;
    }
    Some(Heading {
        height: height.value,
        width: width.value,
        start: last + 1,
    })
}

// The pixel bytes of a file, row by row, into the lent pixels.
pub fn read_p6(file: &[u8], pixels: &mut [u8]) -> Result<Sides, Refusal>
    ensures { Outcome file.now pixels.old result pixels.new }
{
    let Some(heading) = heading_of(file) else {
        return Err(Refusal::Header);
    };
    let Heading {
        height,
        width,
        start,
    } = heading;
    if wrong_side(height) {
        return Err(Refusal::Size);
    }
    if wrong_side(width) {
        return Err(Refusal::Size);
    }
    let n = 3 * (height * width);
    if file.len() - start != n {
        return Err(Refusal::Length);
    }
    if pixels.len() < n {
        return Err(Refusal::Room);
    }
    put_word(pixels, 0, &file[start..]);
    Ok(Sides { height, width })
}
