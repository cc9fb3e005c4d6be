// The calls that read and write a Netpbm P6 file.
ghost use Rattle.piet_c.specs.Exported.{Exported};
ghost use Rattle.piet_c.specs.Calls.{ReadP6Call, WriteP6Call};

use crate::{put_one, put_two, refuse, refuse_at};
use netpbm::reading::read_p6;
use netpbm::writing::write_p6;

// The pixels of a P6 file; answer: height, width.
pub fn piet_read_p6(file: &[u8], pixels: &mut [u8], answer: &mut [u64]) -> u32
    ensures { Exported 2 (ReadP6Call file.now pixels.old) pixels.old answer.old result pixels.new answer.new }
{
    if answer.len() < 2 {
        return 4;
    }
    match read_p6(file, pixels) {
        // the height is the first value, as every call has it, though the file has the width first
        Ok(sides) => {
            put_two(answer, sides.height as u64, sides.width as u64);
            0
        }
        Err(refusal) => refuse_at(answer, 2, refusal),
    }
}

// Pixels as a P6 file; answer: its length.
pub fn piet_write_p6(
    pixels: &[u8],
    height: usize,
    width: usize,
    file: &mut [u8],
    answer: &mut [u64],
) -> u32
    ensures { Exported 1 (WriteP6Call pixels.now height width file.old) file.old answer.old result file.new answer.new }
{
    if answer.len() < 1 {
        return 4;
    }
    match write_p6(pixels, height, width, file) {
        Ok(length) => {
            put_one(answer, length as u64);
            0
        }
        Err(refusal) => refuse(answer, 1, refusal),
    }
}
