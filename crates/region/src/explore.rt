// One region is explored from its first codel (`explore_region`): a flood with a queue of codels in
// the work slice. The map is what `discovered` is in the Rust.
ghost use Rattle.std.specs.Prelude.{◌≡◌, ◌+◌, ◌*◌, ◌≤◌, ◌<◌, get_or};
ghost use Rattle.region.specs.Grid.{count, grid_at};
ghost use Rattle.region.specs.Room.{Room};
ghost use Rattle.region.specs.Steps.{unnumbered, vacant, Visit, Spread, Part, Numbered};

use crate::codels::{codel_colour, neighbour};
use picture::grid::CodelGrid;

// What a codel without a number has in the map.
pub const MARK: u32 = 65536;

// Numbers codel j and puts it at the queue's tail, where it is inside, has no number and has
// this colour. Returns the new tail.
fn visit(
    grid: CodelGrid,
    colour: u8,
    number: u32,
    j: usize,
    map: &mut [u32],
    work: &mut [u32],
    tail: usize,
) -> usize
    requires room { Room grid map.old work.old }
    requires tail_bound { vacant (count (grid_at grid)) map.old + tail ≤ count (grid_at grid) }
    ensures { Visit (grid_at grid.entry) colour number j map.old work.old tail map.new work.new result }
{
    let outside = grid.shape.rows * grid.shape.cols;
    if outside <= j {
        return tail;
    }
    if map[j] != MARK {
        return tail;
    }
    if codel_colour(grid, j) != colour {
        return tail;
    }
    map[j] = number;
    work[tail] = j as u32;
    tail + 1
}

// Visits the four codels one step from i. Returns the new tail of the queue.
fn expand(
    grid: CodelGrid,
    number: u32,
    i: usize,
    map: &mut [u32],
    work: &mut [u32],
    tail: usize,
) -> usize
    requires room { Room grid map.old work.old }
    requires tail_bound { vacant (count (grid_at grid)) map.old + tail ≤ count (grid_at grid) }
    requires i_bound { i < count (grid_at grid) }
    requires number_lt_unnumbered { number < unnumbered }
    ensures { Spread (grid_at grid.entry) number i 4 map.old work.old tail map.new work.new result }
{
    let colour = codel_colour(grid, i);
    let mut end = tail;
    for way in 0..4 {
        let j = neighbour(grid.shape, i, way);
        end = visit(grid, colour, number, j, map, work, end);
    }
    end
}

// Gives the number to the seed and to every codel that is joined to it. Codels are never taken out of
// the queue: the head moves on, so the room that it needs is that of the codels.
pub fn explore_region(grid: CodelGrid, number: u32, seed: usize, map: &mut [u32], work: &mut [u32])
    requires room { Room grid map.old work.old }
    requires part { Part (grid_at grid) seed number map.old }
    requires seed_bound { seed < count (grid_at grid) }
    requires seed_value { get_or map.old seed 0 ≡ unnumbered }
    ensures { Numbered (grid_at grid.entry) (seed + 1) (number + 1) map.old work.old map.new work.new }
{
    map[seed] = number;
    work[0] = seed as u32;
    let mut head = 0;
    let mut tail = 1;
    // no range: the tail grows as codels are taken
    while head < tail {
        let i = work[head] as usize;
        tail = expand(grid, number, i, map, work, tail);
        head += 1;
    }
}
