// The whole table, in slices of exactly the room that it needs.
ghost use Rattle.picture.specs.Codels.{picture_in};
ghost use Rattle.cfg.specs.Table.{Builds};
ghost use Rattle.cfg.specs.Search.{Begun, Sized};

use crate::nodes::keep_nodes;
use crate::search::search;
use base::edition::Edition;
use exit::leave::leave_by;
use picture::grid::CodelGrid;

// Writes the map and the rows, with no node marked, and returns the count of regions.
fn begin(
    grid: CodelGrid,
    map: &mut [u32],
    rows: &mut [u32],
    exits: &[u32],
    work: &mut [u32],
) -> usize
    requires { Sized (picture_in grid) map.old rows.old exits.now work.old }
    ensures { Begun (picture_in grid.entry) map.new result rows.new }
{
    let n = region::number_regions(grid, map, work);
    region::region_rows(grid, n, map, rows);
    n
}

// Writes map, rows and exits, leaves the work slice 0, and returns the count of regions.
pub fn fill_table(
    grid: CodelGrid,
    edition: Edition,
    map: &mut [u32],
    rows: &mut [u32],
    exits: &mut [u32],
    work: &mut [u32],
) -> usize
    requires { Sized (picture_in grid) map.old rows.old exits.old work.old }
    ensures { Builds edition (picture_in grid.entry) map.new rows.new exits.new work.new result }
{
    let n = begin(grid, map, rows, exits, work);
    leave_by(map, exits, grid.shape.rows, grid.shape.cols);
    search(grid, edition, map, rows, exits, work);
    keep_nodes(n, rows, exits);
    work.fill(0);
    n
}
