// A codel by its index, row by row: its colour, and the codels one step from it.
ghost use Rattle.std.specs.Prelude.{◌≡◌, ◌*◌, ◌≤◌, ◌<◌};
ghost use Rattle.region.specs.Grid.{count, grid_at, Neighbour};

use picture::grid::CodelGrid;
use picture::shape::Shape;

// The colour of codel i.
pub fn codel_colour(grid: CodelGrid, i: usize) -> u8
    requires { i < count (grid_at grid) }
    ensures { result ≡ (grid_at grid.entry).colour i }
{
    let cols = grid.shape.cols;
    grid.colour_at(i / cols, i % cols)
}

// The codel one step from i, toward 0 right, 1 down, 2 left, 3 up (`adjacencies` has all four). The
// count of codels stands for outside: no codel has that index, so the caller's own test for inside
// finds it. The shape alone: a `CodelGrid` would ask more of callers.
pub fn neighbour(s: Shape, i: usize, way: usize) -> usize
    requires cols_bound { s.rows * s.cols ≤ 65536 }
    requires i_bound { i < s.rows * s.cols }
    requires way_bound { way < 4 }
    ensures { Neighbour s.rows s.cols way i result }
{
    let cols = s.cols;
    let outside = s.rows * cols;
    let col = i % cols;
    match way {
        0 => if col + 1 < cols { i + 1 } else { outside },
        1 => if i + cols < outside {
            i + cols
        } else {
            outside
        },
        2 => if 0 < col { i - 1 } else { outside },
        _ => if cols <= i { i - cols } else { outside },
    }
}
