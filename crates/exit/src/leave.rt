// The codel to leave each region by, for the eight pointer states (rule 4.2; `possible_exits`). The grid is given by its sides:
// a `CodelGrid` would ask more of a caller, for colours that nothing here looks at.
ghost use Rattle.std.specs.Prelude.{◌≡◌, ◌*◌, ◌<◌, length, replicate};
ghost use Rattle.flow.specs.Pointer.{Valid};
ghost use Rattle.exit.specs.Leaving.{reach, beats};
ghost use Rattle.exit.specs.LeaveTable.{Mapped, AllKept};
ghost use Rattle.exit.specs.Keeping.{Cells, Kept, better, kept};

use flow::PointerState;
use table::wide;

// How many codels of its row or column lie behind codel i of the grid, facing d.
fn reach_of(rows: usize, cols: usize, d: u8, i: usize) -> usize
    requires { (0 < cols) × (i < rows * cols) }
    ensures { result ≡ reach rows cols d i }
{
    match d {
        0 => i % cols,
        1 => i / cols,
        2 => cols - 1 - i % cols,
        _ => rows - 1 - i / cols,
    }
}

// Whether codel i lies further toward dp than codel j, or as far and further toward cc. The eight closures of
// `FURTHEST` become one choice on the state: the side that cc means, facing dp, is a direction too.
fn beats_codel(rows: usize, cols: usize, s: PointerState, i: usize, j: usize) -> bool
    requires { (0 < cols) × (i < rows * cols) × (j < rows * cols) × Valid s }
    ensures { result ≡ beats rows cols s i j }
{
    let dp = s.dp;
    let cc = s.cc;
    let a = reach_of(rows, cols, dp, i);
    let b = reach_of(rows, cols, dp, j);
    if b < a {
        return true;
    }
    if a < b {
        return false;
    }
    let side = (dp + 3 + 2 * cc) % 4;
    let a = reach_of(rows, cols, side, i);
    let b = reach_of(rows, cols, side, j);
    b < a
}

// Of codel i and the one kept so far: i, where j is of another region or beaten. So no cell has to say that it is
// empty: a codel of another region stands for that.
fn better_of(map: &[u32], rows: usize, cols: usize, s: PointerState, i: usize, j: usize) -> usize
    requires { (0 < cols) × (length map.now ≡ rows * cols) × (i < length map.now) × (j < length map.now) × Valid s }
    ensures { result ≡ better map.now rows cols s i j }
{
    if map[j] == map[i] && !beats_codel(rows, cols, s, i, j) {
        return j;
    }
    i
}

// Weighs codel i against the one kept for its region in state s. The better of the two is stored in any case.
fn keep(map: &[u32], best: &mut [u32], rows: usize, cols: usize, s: PointerState, i: usize)
    requires { Cells map.now best.old rows cols × (i < length map.now) × Valid s }
    ensures { best.new ≡ kept map.now best.old rows cols s i }
{
    let cell = table::exit_cell(wide(map[i]), s.number() as usize);
    let j = wide(best[cell]);
    best[cell] = better_of(map, rows, cols, s, i, j) as u32;
}

// One pass over the codels: afterwards the cells of state s hold the codel to leave each region by.
fn leave_state(map: &[u32], best: &mut [u32], rows: usize, cols: usize, s: PointerState)
    requires { Cells map.now best.old rows cols × Valid s }
    ensures { Cells map.now best.new rows cols × Kept map.now best.old best.new rows cols s (length map.now) }
{
    for i in 0..map.len() {
        keep(map, best, rows, cols, s, i);
    }
}

// The eight passes, one for each state.
fn leave_states(map: &[u32], best: &mut [u32], rows: usize, cols: usize)
    requires { Cells map.now best.old rows cols }
    ensures { AllKept map.now best.old best.new rows cols 8 }
{
    for n in 0..8 {
        leave_state(map, best, rows, cols, PointerState::of_number(n));
    }
}

// A region's exit cell in a state becomes the codel to leave it by; the cells of no region become 0. Each pass looks at
// each codel once, and the lent cells are all the room that this takes.
pub fn leave_by(map: &[u32], best: &mut [u32], rows: usize, cols: usize)
    requires { Mapped map.now (length best.old) rows cols }
    ensures { AllKept map.now (replicate (length best.old) 0) best.new rows cols 8 }
{
    best.fill(0);
    leave_states(map, best, rows, cols);
}
