// The region rows: each region's colour, size, and the row and column of its first pixel. The cell of
// the node mark is left 0: the nodes are found later.
ghost use Rattle.std.specs.Prelude.{◌≡◌, ◌≤◌, ◌<◌, length, get_or, set, drop};
ghost use Rattle.table.specs.Layout.{field_number, row_cell, size_field, rows_room};
ghost use Rattle.region.specs.Grid.{count, grid_at};
ghost use Rattle.region.specs.Region.{IsMap};
ghost use Rattle.region.specs.Rows.{IsTable};
ghost use Rattle.region.specs.Steps.{begun, Noted};

use crate::codels::codel_colour;
use base::fill::fill;
use picture::grid::CodelGrid;
use table::{Field, row_cell, rows_room};

// Stores a number in a field of region r's row.
fn set_field(rows: &mut [u32], r: usize, field: Field, v: u32)
    requires r_bound { r ≤ 65536 }
    requires field_in_bounds { row_cell r (field_number field) < length rows.old }
    ensures { rows.new ≡ set rows.old (row_cell r (field_number field)) v }
{
    let at = row_cell(r, field);
    rows[at] = v;
}

// Begins region r's row with its first codel, i. The first pixel is that codel's top left one, so its
// row and column are counted in pixels and not in codels.
fn begin_row(grid: CodelGrid, i: usize, r: usize, rows: &mut [u32])
    requires i_bound { i < count (grid_at grid) }
    requires r_bound { r < count (grid_at grid) }
    requires cols_in_bounds { rows_room (count (grid_at grid)) ≤ length rows.old }
    ensures { rows.new ≡ begun (grid_at grid.entry) grid.entry.shape.codel i r rows.old }
{
    let cols = grid.shape.cols;
    let colour = codel_colour(grid, i);
    let row = i / cols * grid.shape.codel;
    let col = i % cols * grid.shape.codel;
    set_field(rows, r, Field::Colour, colour as u32);
    set_field(rows, r, Field::Size, 1);
    set_field(rows, r, Field::FirstRow, row as u32);
    set_field(rows, r, Field::FirstColumn, col as u32);
}

// Counts codel i in its region's row. A row of size 0 has had no codel, so codel i, the codels being
// passed row by row, is its region's first.
fn note(grid: CodelGrid, i: usize, map: &[u32], rows: &mut [u32])
    requires i_bound { i < count (grid_at grid) }
    requires i_in_bounds { i < length map.now }
    requires i_bound_2 { get_or map.now i 0 < count (grid_at grid) }
    requires cols_in_bounds { rows_room (count (grid_at grid)) ≤ length rows.old }
    requires size_field_bound { get_or rows.old (row_cell (get_or map.now i 0) size_field) 0 ≤ i }
    ensures { Noted (grid_at grid.entry) grid.entry.shape.codel i (get_or map.now i 0) rows.old rows.new }
{
    let r = map[i] as usize;
    let at = row_cell(r, Field::Size);
    let size = rows[at];
    if size != 0 {
        rows[at] = size + 1;
        return;
    }
    begin_row(grid, i, r, rows);
}

// Writes the rows of the n regions that the map numbers, and 0 to the other rows that a grid of so
// many codels could have. Cells beyond are not touched.
pub fn region_rows(grid: CodelGrid, n: usize, map: &[u32], rows: &mut [u32])
    requires map { IsMap (grid_at grid) map.now n }
    requires cols_in_bounds { rows_room (count (grid_at grid)) ≤ length rows.old }
    ensures table { IsTable (grid_at grid.entry) grid.entry.shape.codel n map.now rows.new }
    ensures rest { drop (rows_room (count (grid_at grid.entry))) rows.new ≡ drop (rows_room (count (grid_at grid.entry))) rows.old }
{
    let count = grid.shape.rows * grid.shape.cols;
    let room = rows_room(count);
    fill(rows, 0, room, 0);
    for i in 0..count {
        note(grid, i, map, rows);
    }
}
