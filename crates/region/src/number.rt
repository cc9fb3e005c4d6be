// The map of region numbers. The codels are passed row by row, and one without a number is the first
// of its region, so the numbers come in the order of first codels.
ghost use Rattle.std.specs.Prelude.{◌≡◌, ◌++◌, ◌+◌, ◌*◌, ◌<◌, drop, replicate};
ghost use Rattle.region.specs.Grid.{count, grid_at};
ghost use Rattle.region.specs.Region.{IsMap};
ghost use Rattle.region.specs.Room.{Room};
ghost use Rattle.region.specs.Steps.{Part, Numbered};

use crate::explore::{MARK, explore_region};
use base::fill::fill;
use picture::grid::CodelGrid;

// Numbers codel i's region, the next one, where codel i has no number yet. Returns the count of
// regions numbered.
fn claim(grid: CodelGrid, found: usize, i: usize, map: &mut [u32], work: &mut [u32]) -> usize
    requires room { Room grid map.old work.old }
    requires part { Part (grid_at grid) i found map.old }
    requires i_bound { i < count (grid_at grid) }
    ensures { Numbered (grid_at grid.entry) (i + 1) result map.old work.old map.new work.new }
{
    if map[i] != MARK {
        return found;
    }
    explore_region(grid, found as u32, i, map, work);
    found + 1
}

// Numbers every region, by first codel. Returns their count.
fn scan(grid: CodelGrid, map: &mut [u32], work: &mut [u32]) -> usize
    requires room { Room grid map.old work.old }
    requires part { Part (grid_at grid) 0 0 map.old }
    ensures { Numbered (grid_at grid.entry) (count (grid_at grid.entry)) result map.old work.old map.new work.new }
{
    let count = grid.shape.rows * grid.shape.cols;
    let mut found = 0;
    for i in 0..count {
        found = claim(grid, found, i, map, work);
    }
    found
}

// Writes each codel's region number to the map, and returns the count of regions. The work slice is
// left 0. Cells beyond the codels are not touched.
pub fn number_regions(grid: CodelGrid, map: &mut [u32], work: &mut [u32]) -> usize
    requires { Room grid map.old work.old }
    ensures numbers { IsMap (grid_at grid.entry) map.new result }
    ensures rest { drop (count (grid_at grid.entry)) map.new ≡ drop (count (grid_at grid.entry)) map.old }
    ensures zeros { work.new ≡ replicate (count (grid_at grid.entry)) 0 ++ drop (count (grid_at grid.entry)) work.old }
{
    let count = grid.shape.rows * grid.shape.cols;
    fill(map, 0, count, MARK);
    let n = scan(grid, map, work);
    // once, at the end: the regions' queues overwrite each other
    fill(work, 0, count, 0);
    n
}
