// The search for nodes, breadth first from region 0: each found region's exits are settled as it is
// taken from the queue.
ghost use Rattle.std.specs.Prelude.{◌≡◌, ◌+◌, ◌*◌, ◌/◌, ◌%◌, ◌<◌, ◌≤◌, length, get_or};
ghost use Rattle.flow.specs.Pointer.{of_number};
ghost use Rattle.picture.specs.Codels.{picture_in};
ghost use Rattle.picture.specs.Picture.{rows_of, cols_of, codels};
ghost use Rattle.table.specs.ExitNumber.{exit_number};
ghost use Rattle.table.specs.Layout.{exits_room, exit_at};
ghost use Rattle.exit.specs.Leaving.{LeavesBy};
ghost use Rattle.cfg.specs.Nodes.{Found};
ghost use Rattle.cfg.specs.Search.{lost_exit, way_number, Room, Visit, Queued, InGrid, Grounds, Queue, Tries, Several, Taken, Ready, Searched};

use base::edition::Edition;
use colour::decode::{PairTable, decode_in, pair_table};
use exit::attempt::{Way, attempt_from};
use flow::PointerState;
use picture::grid::CodelGrid;
use table::{Field, LOST_SLIDE, exit_cell, exit_number, row_cell, wide};

// Marks region q and puts it at the queue's tail, where it has no mark. Returns the new tail.
fn visit(q: usize, rows: &mut [u32], work: &mut [u32], tail: usize) -> usize
    requires room { Room rows.old work.old tail }
    requires q_in_bounds { q < length work.old }
    ensures { Visit q rows.old work.old tail rows.new work.new result }
{
    let cell = row_cell(q, Field::Mark);
    if rows[cell] != 0 {
        return tail;
    }
    rows[cell] = 1;
    work[tail] = q as u32;
    tail + 1
}

// Visits the region of the codel in row and col.
fn visit_at(
    map: &[u32],
    cols: usize,
    row: usize,
    col: usize,
    rows: &mut [u32],
    work: &mut [u32],
    tail: usize,
) -> usize
    requires room { Room rows.old work.old tail }
    requires map_len { length map.now ≡ length work.old }
    requires col_in_bounds { row * cols + col < length map.now }
    requires col_in_bounds_2 { get_or map.now (row * cols + col) 0 < length work.old }
    ensures { Visit (get_or map.now (row * cols + col) 0) rows.old work.old tail rows.new work.new result }
{
    let q = wide(map[row * cols + col]);
    visit(q, rows, work, tail)
}

// Visits the regions that a way adds.
fn queue_way(
    grid: CodelGrid,
    map: &[u32],
    way: Way,
    rows: &mut [u32],
    work: &mut [u32],
    tail: usize,
) -> usize
    requires grounds { Grounds (picture_in grid) map.now }
    requires in_grid { InGrid (picture_in grid) way }
    requires room { Room rows.old work.old tail }
    requires work_len { length work.old ≡ codels (picture_in grid) }
    ensures { Queued map.now (cols_of (picture_in grid.entry)) rows.old work.old tail way rows.new work.new result }
{
    let cols = grid.shape.cols;
    match way {
        Way::Closed => tail,
        Way::Step { row, col } => visit_at(map, cols, row, col, rows, work, tail),
        Way::Astray { row, col } => visit_at(map, cols, row, col, rows, work, tail),
        Way::Glide {
            row,
            col,
            to_row,
            to_col,
            state,
        } => {
            let end = visit_at(map, cols, row, col, rows, work, tail);
            visit_at(map, cols, to_row, to_col, rows, work, end)
        }
    }
}

// The exit to the region of the codel with an index.
fn exit_to(map: &[u32], at: usize, state: u8, instruction: u8) -> u32
    requires at_in_bounds { at < length map.now }
    requires at_bound { get_or map.now at 0 < 65536 }
    requires state_bound { state < 8 }
    ensures { result ≡ exit_number (get_or map.now at 0) state instruction }
{
    exit_number(map[at], state, instruction)
}

// The exit of a lost slide: none in edition 1, and the run's end in edition 2 (rules 16.5, 16.6).
fn lost_exit(edition: Edition) -> u32
    ensures { result ≡ lost_exit edition }
{
    match edition {
        Edition::Rust => 0,
        Edition::Page => LOST_SLIDE,
    }
}

// The exit number of a way from a region of the colour from, in a state.
fn way_number(
    grid: CodelGrid,
    edition: Edition,
    map: &[u32],
    pairs: &PairTable,
    from: u8,
    state: u8,
    way: Way,
) -> u32
    requires grounds { Grounds (picture_in grid) map.now }
    requires in_grid { InGrid (picture_in grid) way }
    requires state_bound { state < 8 }
    ensures { result ≡ way_number edition (picture_in grid.entry) map.now from state way }
{
    let cols = grid.shape.cols;
    match way {
        Way::Closed => 0,
        Way::Astray { row, col } => lost_exit(edition),
        Way::Step { row, col } => {
            let to = grid.colour_at(row, col);
            let instruction = decode_in(pairs, from, to);
            exit_to(map, row * cols + col, state, instruction)
        }
        Way::Glide {
            row,
            col,
            to_row,
            to_col,
            state: t,
        } => {
            let new = t.number();
            exit_to(map, to_row * cols + to_col, new, 0)
        }
    }
}

// Settles the exit of region r in a state: its cell, which has the codel to leave by, gets the exit
// number, and the regions that the attempt adds are queued.
fn try_state(
    grid: CodelGrid,
    edition: Edition,
    map: &[u32],
    pairs: &PairTable,
    r: usize,
    state: u8,
    rows: &mut [u32],
    exits: &mut [u32],
    work: &mut [u32],
    tail: usize,
) -> usize
    requires grounds { Grounds (picture_in grid) map.now }
    requires found { Found edition (picture_in grid) map.now r }
    requires queue { Queue edition (picture_in grid) map.now rows.old work.old tail }
    requires leaves_by { LeavesBy map.now (rows_of (picture_in grid)) (cols_of (picture_in grid)) (of_number state) r (exit_at exits.old r state) }
    requires work_len { length work.old ≡ codels (picture_in grid) }
    requires r_in_bounds { exits_room (r + 1) ≤ length exits.old }
    requires r_bound { r < 65536 }
    requires state_bound { state < 8 }
    ensures { Tries edition (picture_in grid.entry) map.now r state rows.old exits.old work.old tail rows.new exits.new work.new result }
{
    let cell = exit_cell(r, state as usize);
    let cols = grid.shape.cols;
    let i = wide(exits[cell]);
    let row = i / cols;
    let col = i % cols;
    let from = grid.colour_at(row, col);
    let p = PointerState::of_number(state);
    let way = attempt_from(grid, edition, row, col, p);
    exits[cell] = way_number(grid, edition, map, pairs, from, state, way);
    queue_way(grid, map, way, rows, work, tail)
}

// Settles the eight exits of region r.
fn try_states(
    grid: CodelGrid,
    edition: Edition,
    map: &[u32],
    pairs: &PairTable,
    r: usize,
    rows: &mut [u32],
    exits: &mut [u32],
    work: &mut [u32],
    tail: usize,
) -> usize
    requires taken { Taken edition (picture_in grid) map.now exits.old work.old r }
    requires queue { Queue edition (picture_in grid) map.now rows.old work.old tail }
    ensures { Several edition (picture_in grid.entry) map.now r 8 rows.old exits.old work.old tail rows.new exits.new work.new result }
{
    let mut end = tail;
    for state in 0..8 {
        end = try_state(grid, edition, map, pairs, r, state, rows, exits, work, end);
    }
    end
}

// Marks the regions found from region 0, white ones too, and settles their exits.
pub fn search(
    grid: CodelGrid,
    edition: Edition,
    map: &[u32],
    rows: &mut [u32],
    exits: &mut [u32],
    work: &mut [u32],
)
    requires { Ready (picture_in grid) map.now rows.old exits.old work.old }
    ensures { Searched edition (picture_in grid.entry) map.now rows.old exits.old rows.new exits.new }
{
    let pairs = pair_table();
    let mut tail = visit(0, rows, work, 0);
    let mut head = 0;
    // no range: the tail grows as regions are taken
    while head < tail {
        let r = wide(work[head]);
        tail = try_states(grid, edition, map, &pairs, r, rows, exits, work, tail);
        head += 1;
    }
}
