// Building: its tests, and then the table.
ghost use Rattle.std.specs.Prelude.{◌≡◌, ◌*◌, ◌<◌, ◌≤◌, length};
ghost use Rattle.base.specs.Refusal.{tested};
ghost use Rattle.picture.specs.Codels.{picture_in};
ghost use Rattle.picture.specs.Picture.{picture, ceil};
ghost use Rattle.cfg.specs.Build.{legal_first, short, picture_refusal, Enough, Written, Outcome};

use crate::filling::fill_table;
use base::edition::Edition;
use base::limits::wrong_side;
use base::refusal::Refusal;
use colour::palette::WHITE;
use picture::grid::CodelGrid;
use picture::shape::shape_of;
use table::{exits_room, rows_room};

// How many colours stand before the first above 19.
fn legal_first(colours: &[u8]) -> usize
    ensures { result ≡ legal_first colours.now }
{
    let first = colours.iter().position(|c| 19 < *c);
    first.unwrap_or(colours.len())
}

// Whether a lent slice, given by its length, is too short for so many codels.
pub fn too_short(count: usize, map: usize, rows: usize, exits: usize, work: usize) -> bool
    requires { count ≤ 65536 }
    ensures { result ≡ short count map rows exits work }
{
    if map < count {
        return true;
    }
    if rows < rows_room(count) {
        return true;
    }
    if exits < exits_room(count) {
        return true;
    }
    work < count
}

// How many codels a picture of small sides has.
pub fn codel_count(height: usize, width: usize, codel: usize) -> usize
    requires { (height ≤ 1024) × (width ≤ 1024) × (0 < codel) × (codel ≤ 1024) }
    ensures { result ≡ ceil height codel * ceil width codel }
{
    let s = shape_of(height, width, codel);
    s.rows * s.cols
}

// A picture's tests in their order (rule 12.4); the lent slices are given by their lengths. Nothing is written.
fn check(
    colours: &[u8],
    height: usize,
    width: usize,
    codel: usize,
    map: usize,
    rows: usize,
    exits: usize,
    work: usize,
) -> Result<(), Refusal>
    ensures { tested result ≡ picture_refusal (picture height width codel colours.now) map rows exits work }
{
    if wrong_side(height) {
        return Err(Refusal::Size);
    }
    if wrong_side(width) {
        return Err(Refusal::Size);
    }
    if wrong_side(codel) {
        return Err(Refusal::Codel);
    }
    let count = codel_count(height, width, codel);
    let pixels = height * width;
    if 65536 < count {
        return Err(Refusal::Grid);
    }
    if colours.len() != pixels {
        return Err(Refusal::Bytes);
    }
    let index = legal_first(colours);
    if index < pixels {
        return Err(Refusal::Colour { index });
    }
    if colours[0] == WHITE {
        return Err(Refusal::White);
    }
    if too_short(count, map, rows, exits, work) {
        return Err(Refusal::Room);
    }
    Ok(())
}

// Writes the table to the beginnings of slices that are long enough.
fn write_table(
    grid: CodelGrid,
    edition: Edition,
    map: &mut [u32],
    rows: &mut [u32],
    exits: &mut [u32],
    work: &mut [u32],
) -> usize
    requires { Enough (picture_in grid) (length map.old) (length rows.old) (length exits.old) (length work.old) }
    ensures { Written edition (picture_in grid.entry) map.old rows.old exits.old work.old map.new rows.new exits.new work.new result }
{
    let count = grid.shape.rows * grid.shape.cols;
    let of_rows = rows_room(count);
    let of_exits = exits_room(count);
    fill_table(
        grid,
        edition,
        &mut map[..count],
        &mut rows[..of_rows],
        &mut exits[..of_exits],
        &mut work[..count],
    )
}

// The table of a picture of G codels in the edition of a number: the map, G cells; the region rows, 5G; the exits, 8G; the
// work slice, G cells, left 0. The count of regions is given. Where the call is refused, no slice is changed.
pub fn build(
    colours: &[u8],
    height: usize,
    width: usize,
    codel: usize,
    edition: u32,
    map: &mut [u32],
    rows: &mut [u32],
    exits: &mut [u32],
    work: &mut [u32],
) -> Result<usize, Refusal>
    ensures { Outcome edition (picture height width codel colours.now) map.old rows.old exits.old work.old result map.new rows.new exits.new work.new }
{
    let known = Edition::try_from(edition)?;
    check(
        colours,
        height,
        width,
        codel,
        map.len(),
        rows.len(),
        exits.len(),
        work.len(),
    )?;
    let shape = shape_of(height, width, codel);
    let grid = CodelGrid { colours, shape };
    Ok(write_table(grid, known, map, rows, exits, work))
}
