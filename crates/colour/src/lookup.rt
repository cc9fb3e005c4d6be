// Which of the twenty colours three bytes are.
ghost use Rattle.std.specs.Prelude.{◌≡◌};
ghost use Rattle.colour.specs.Palette.{rgb, colour_of};
ghost use Rattle.colour.specs.Lookup.{joined_of, palette_rows, likely_rows};

// Where to look for a colour: the remainder by 53 tells the twenty apart. A remainder that none of them has leads to row 0, which
// is then another colour.
pub const LIKELY: [u8; 53] = [
    18, 3, 13, 5, 0, 0, 0, 0, 0, 0, 0, 0, 19, 0, 0, 0, 0, 0, 0, 0, 0, 2, 7, 0, 0, 0, 0, 9, 11, 0,
    0, 0, 0, 4, 16, 0, 0, 8, 6, 12, 14, 0, 0, 10, 1, 0, 0, 0, 0, 17, 15, 0, 0,
];

// Three bytes as one number.
fn joined(r: u8, g: u8, b: u8) -> u32
    ensures { result ≡ joined_of (rgb r g b) }
{
    65536 * (r as u32) + 256 * (g as u32) + b as u32
}

// The number of the colour with these three bytes, if it is one of the twenty. No row is compared but the likely one: each row is the likely row of its
// own bytes, so bytes that differ from theirs are in no row. The tables are lent, since a constant table is made anew
// wherever the code names it, and pixels are many.
pub fn colour_of(palette: &[u32], likely: &[u8], r: u8, g: u8, b: u8) -> Option<u8>
    requires { (palette.now ≡ palette_rows) × (likely.now ≡ likely_rows) }
    ensures { result ≡ colour_of (rgb r g b) }
{
    let bytes = joined(r, g, b);
    let row = likely[(bytes % 53) as usize];
    if palette[row as usize] == bytes {
        return Some(row);
    }
    None
}
