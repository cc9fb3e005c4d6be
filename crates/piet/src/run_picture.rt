// From pixels to a run's result, over lent room: classifying, building and running, one after the other.
ghost use Rattle.std.specs.Prelude.{◌≡◌, Bool, false, List, [], ◌∷◌, ℕ, ◌*◌, ◌<◌, length, get_or};
ghost use Rattle.base.specs.Numbers.{numbers};
ghost use Rattle.base.specs.Refusal.{tested};
ghost use Rattle.base.specs.Limits.{wrong_side};
ghost use Rattle.picture.specs.Picture.{picture};
ghost use Rattle.colour.specs.Classify.{colours_under};
ghost use Rattle.cfg.specs.Build as building;
ghost use Rattle.machine.specs.Machine.{asks};
ghost use Rattle.piet.specs.RunPicture.{Outcome, asked, lends, refusal};
ghost use Rattle.piet.specs.Drawn.{Draws};

use base::edition::Edition;
use base::limits::wrong_side;
use base::refusal::Refusal;
use cfg::{codel_count, too_short};
use colour::classify::{colour_under, found_at};
use colour::palette::WHITE;
use interpreter::Ended;

// Where the run stopped, and how many regions the picture has.
#[derive(Clone, Copy)]
pub struct Pictured {
    pub ended: Ended,
    pub regions: usize,
}

// The colour of the first pixel.
fn first_colour(pixels: &[u8], setting: u8) -> u8
    requires { 2 < length pixels.now }
    ensures { result ≡ get_or (colours_under pixels.now setting) 0 0 }
{
    let f = found_at(pixels, 0);
    colour_under(setting, f)
}

// Building's tests in their order (rule 12.4), where classifying refuses nothing: the pixels are then as many as they
// should be and their colours at most 19. The lent slices are given by their lengths.
fn check_table(
    pixels: &[u8],
    height: usize,
    width: usize,
    setting: u8,
    codel: usize,
    map: usize,
    rows: usize,
    exits: usize,
    work: usize,
) -> Result<(), Refusal>
    requires height_value { (wrong_side height ≡ false) × (wrong_side width ≡ false) }
    requires pixels_len { length pixels.now ≡ 3 * (height * width) }
    ensures { tested result ≡ building.picture_refusal (picture height width codel (colours_under pixels.now setting)) map rows exits work }
{
    if wrong_side(codel) {
        return Err(Refusal::Codel);
    }
    let count = codel_count(height, width, codel);
    if 65536 < count {
        return Err(Refusal::Grid);
    }
    let colour = first_colour(pixels, setting);
    let short = too_short(count, map, rows, exits, work);
    if colour == WHITE {
        return Err(Refusal::White);
    }
    if short {
        return Err(Refusal::Room);
    }
    Ok(())
}

// All tests, that of the edition first, then those of classifying (rule 12.5). Nothing is written.
fn check(
    pixels: &[u8],
    height: usize,
    width: usize,
    setting: u8,
    codel: usize,
    edition: u32,
    colours: usize,
    map: usize,
    rows: usize,
    exits: usize,
    work: usize,
) -> Result<(), Refusal>
    ensures { (limit : ℕ) (mode : Bool) (input : List ℕ) → tested result ≡ refusal (asked pixels.now height width setting codel (asks edition limit mode input)) colours map rows exits work }
{
    Edition::try_from(edition)?;
    colour::classify::check(pixels, height, width, setting, colours)?;
    check_table(
        pixels, height, width, setting, codel, map, rows, exits, work,
    )
}

// The table of colours that building does not refuse, and its run.
fn run_colours(
    colours: &[u8],
    height: usize,
    width: usize,
    codel: usize,
    edition: u32,
    limit: u64,
    abstract_mode: bool,
    input: &[u8],
    map: &mut [u32],
    rows: &mut [u32],
    exits: &mut [u32],
    work: &mut [u32],
    stack: &mut [i64],
    kinds: &mut [u8],
    values: &mut [i64],
) -> Result<Pictured, Refusal>
    requires { building.refusal edition (picture height width codel colours.now) (length map.old) (length rows.old) (length exits.old) (length work.old) ≡ numbers 0 (0 ∷ 0 ∷ []) }
    ensures { Draws height width codel (asks edition limit abstract_mode input.now) (lends colours.now map.old rows.old exits.old work.old stack.old kinds.old values.old) result (lends colours.now map.new rows.new exits.new work.new stack.new kinds.new values.new) }
{
    let regions = cfg::build(
        colours, height, width, codel, edition, map, rows, exits, work,
    )?;
    let ended = interpreter::run(
        regions,
        rows,
        exits,
        edition,
        limit,
        abstract_mode,
        input,
        stack,
        kinds,
        values,
    )?;
    Ok(Pictured { ended, regions })
}

// The run of a picture of pixels: its colours, its table and the run's stack and outputs stand in the lent slices. Table
// and run are of one edition. Where the call is refused, no slice is changed (rule 12.1).
pub fn run_picture(
    pixels: &[u8],
    height: usize,
    width: usize,
    setting: u8,
    codel: usize,
    edition: u32,
    limit: u64,
    abstract_mode: bool,
    input: &[u8],
    colours: &mut [u8],
    map: &mut [u32],
    rows: &mut [u32],
    exits: &mut [u32],
    work: &mut [u32],
    stack: &mut [i64],
    kinds: &mut [u8],
    values: &mut [i64],
) -> Result<Pictured, Refusal>
    ensures { Outcome (asked pixels.now height width setting codel (asks edition limit abstract_mode input.now)) (lends colours.old map.old rows.old exits.old work.old stack.old kinds.old values.old) result (lends colours.new map.new rows.new exits.new work.new stack.new kinds.new values.new) }
{
    check(
        pixels,
        height,
        width,
        setting,
        codel,
        edition,
        colours.len(),
        map.len(),
        rows.len(),
        exits.len(),
        work.len(),
    )?;
    colour::classify::classify(pixels, height, width, setting, colours)?;
    let n = height * width;
    run_colours(
        &colours[..n],
        height,
        width,
        codel,
        edition,
        limit,
        abstract_mode,
        input,
        map,
        rows,
        exits,
        work,
        stack,
        kinds,
        values,
    )
}
