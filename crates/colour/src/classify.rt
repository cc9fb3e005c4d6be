// Classifying: pixels of three bytes to colour numbers.
ghost use Rattle.std.specs.Prelude.{◌≡◌, ◌+◌, ◌*◌, ◌<◌, ◌≤◌, length, get_or, true, [], ◌∷◌, None};
ghost use Rattle.base.specs.Lent.{lent};
ghost use Rattle.base.specs.Numbers.{numbers, first};
ghost use Rattle.colour.specs.Lookup.{palette_rows, likely_rows};
ghost use Rattle.colour.specs.Classify.{
  Outcome,
  numbered,
  answer,
  found,
  known_first,
  unknown_pixel,
  colour_under,
  colours_under,
};

use crate::lookup::{LIKELY, colour_of};
use crate::palette::PALETTE;
use crate::setting::{no_setting, refuses, substitute};
use crate::stretch::alike;
use base::fill::fill;
use base::limits::wrong_side;
use base::refusal::Refusal;

// What the palette says of pixel i.
fn found_in(palette: &[u32], likely: &[u8], pixels: &[u8], i: usize) -> Option<u8>
    requires { ((palette.now ≡ palette_rows) × (likely.now ≡ likely_rows)) × (3 * i + 2 < length pixels.now) }
    ensures { result ≡ get_or (found pixels.now) i None }
{
    let at = 3 * i;
    colour_of(palette, likely, pixels[at], pixels[at + 1], pixels[at + 2])
}

// The same, of one pixel by itself.
pub fn found_at(pixels: &[u8], i: usize) -> Option<u8>
    requires { 3 * i + 2 < length pixels.now }
    ensures { result ≡ get_or (found pixels.now) i None }
{
    let palette = PALETTE;
    let likely = LIKELY;
    found_in(&palette, &likely, pixels, i)
}

// How many of the n pixels stand before the first that is unknown.
fn known_first(pixels: &[u8], n: usize) -> usize
    requires { length pixels.now ≡ 3 * n }
    ensures { result ≡ known_first (found pixels.now) }
{
    let palette = PALETTE;
    let likely = LIKELY;
    let mut i = 0;
    // no range: i goes on by a pixel or by a stretch
    while i < n {
        let end = alike(pixels, i, n);
        if end == i {
            if found_in(&palette, &likely, pixels, i).is_none() {
                return i;
            }
            i += 1;
        } else {
            i = end;
        }
    }
    i
}

// The answer under a setting that refuses unknown pixels.
fn first_unknown(pixels: &[u8], n: usize, width: usize) -> Result<(), Refusal>
    requires { (length pixels.now ≡ 3 * n) × (0 < width) }
    ensures { numbered result ≡ first (unknown_pixel true pixels.now n width ∷ []) (numbers 0 (0 ∷ 0 ∷ [])) }
{
    let k = known_first(pixels, n);
    if k < n {
        return Err(Refusal::Pixel {
            row: k / width,
            column: k % width,
        });
    }
    Ok(())
}

// Classifying's tests in their order (rule 12.3). Nothing is written.
pub fn check(
    pixels: &[u8],
    height: usize,
    width: usize,
    setting: u8,
    room: usize,
) -> Result<(), Refusal>
    ensures { numbered result ≡ answer pixels.now height width setting room }
{
    if wrong_side(height) {
        return Err(Refusal::Size);
    }
    if wrong_side(width) {
        return Err(Refusal::Size);
    }
    let n = height * width;
    if no_setting(setting) {
        return Err(Refusal::Setting);
    }
    if pixels.len() != 3 * n {
        return Err(Refusal::Bytes);
    }
    if room < n {
        return Err(Refusal::Room);
    }
    if refuses(setting) {
        return first_unknown(pixels, n, width);
    }
    Ok(())
}

// The colour number that a setting makes of what the palette says.
#[tactic(auto, unfolding(crate::specs::Classify::colour_under))]
pub fn colour_under(setting: u8, f: Option<u8>) -> u8
    ensures { result ≡ colour_under setting f }
{
    f.unwrap_or(substitute(setting))
}

// One colour for each of the n pixels.
fn paint(pixels: &[u8], n: usize, setting: u8, colours: &mut [u8])
    requires { (length pixels.now ≡ 3 * n) × (n ≤ length colours.old) }
    ensures { colours.new ≡ lent (colours_under pixels.now setting) colours.old }
{
    let palette = PALETTE;
    let likely = LIKELY;
    let mut i: usize = 0;
    // no range: i goes on by a pixel or by a stretch
    while i < n {
        let end = alike(pixels, i, n);
        if end == i {
            let f = found_in(&palette, &likely, pixels, i);
            colours[i] = colour_under(setting, f);
            i += 1;
        } else {
            let colour = colours[i - 1];
            fill(colours, i, end, colour);
            i = end;
        }
    }
}

// The colour numbers of the pixels, row by row, into the lent colours.
pub fn classify(
    pixels: &[u8],
    height: usize,
    width: usize,
    setting: u8,
    colours: &mut [u8],
) -> Result<(), Refusal>
    ensures { Outcome pixels.now height width setting colours.old result colours.new }
{
    check(pixels, height, width, setting, colours.len())?;
    paint(pixels, height * width, setting, colours);
    Ok(())
}
