// Region labels: `Entry`, or a colour's name and the row and column of the region's first pixel, as RegRed_0_1.
ghost use Rattle.std.specs.Prelude.{◌≡◌, ◌+◌, ◌≤◌, length};
ghost use Rattle.base.specs.Lent.{Put};
ghost use Rattle.colour.specs.Label.{lightness_name, hue_name, name, place, is_entry, label_of, refused, Outcome};

use crate::palette::{BLACK, WHITE};
use base::fill::fill;
use base::put::{put_number, put_word};
use base::refusal::Refusal;

// `Lightness`: dark, regular, light.
fn put_lightness(out: &mut [u8], k: u8) -> usize
    requires { 5 ≤ length out.old }
    ensures { Put out.old 0 (lightness_name k) result out.new }
{
    match k {
        0 => put_word(out, 0, b"Dark"),
        1 => put_word(out, 0, b"Reg"),
        _ => put_word(out, 0, b"Light"),
    }
}

// `Hue`: red, yellow, green, cyan, blue, magenta.
fn put_hue(out: &mut [u8], at: usize, k: u8) -> usize
    requires { at + 7 ≤ length out.old }
    ensures { Put out.old at (hue_name k) result out.new }
{
    match k {
        0 => put_word(out, at, b"Red"),
        1 => put_word(out, at, b"Yellow"),
        2 => put_word(out, at, b"Green"),
        3 => put_word(out, at, b"Cyan"),
        4 => put_word(out, at, b"Blue"),
        _ => put_word(out, at, b"Magenta"),
    }
}

// The colour's name at the start of out.
fn put_name(out: &mut [u8], colour: u8) -> usize
    requires { 12 ≤ length out.old }
    ensures { Put out.old 0 (name colour) result out.new }
{
    if colour == BLACK {
        return put_word(out, 0, b"Black");
    }
    if colour == WHITE {
        return put_word(out, 0, b"White");
    }
    let at = put_lightness(out, colour / 6);
    put_hue(out, at, colour % 6)
}

// A place: an underscore and a number.
fn put_place(out: &mut [u8], at: usize, n: usize) -> usize
    requires { at + length (place n) ≤ length out.old }
    ensures { Put out.old at (place n) result out.new }
{
    let next = put_word(out, at, b"_");
    put_number(out, next, n as u64)
}

// Whether a region starts at the first pixel.
fn is_entry(row: usize, column: usize) -> bool
    ensures { result ≡ is_entry row column }
{
    row == 0 && column == 0
}

// The label at the start of out.
fn put_label(out: &mut [u8], colour: u8, row: usize, column: usize) -> usize
    requires { ((row ≤ 1023) × (column ≤ 1023)) × (22 ≤ length out.old) }
    ensures { Put out.old 0 (label_of colour row column) result out.new }
{
    if is_entry(row, column) {
        return put_word(out, 0, b"Entry");
    }
    let at = put_name(out, colour);
    let next = put_place(out, at, row);
    put_place(out, next, column)
}

// Refusal 12.
fn refuses(colour: u8, row: usize, column: usize, room: usize) -> bool
    ensures { result ≡ refused colour row column room }
{
    if 19 < colour {
        return true;
    }
    if 1023 < row {
        return true;
    }
    if 1023 < column {
        return true;
    }
    room < 22
}

// The label of a region of a colour whose first pixel stands at a row and a column. Its length is given, or refusal 12.
pub fn label(colour: u8, row: usize, column: usize, out: &mut [u8]) -> Result<usize, Refusal>
    ensures { Outcome colour row column out.old result out.new }
{
    if refuses(colour, row, column, out.len()) {
        return Err(Refusal::Label);
    }
    let n = put_label(out, colour, row, column);
    fill(out, n, 22, 0);
    Ok(n)
}
