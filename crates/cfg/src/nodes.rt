// What is not a node loses its mark and its exits.
ghost use Rattle.std.specs.Prelude.{◌≡◌, ◌+◌, ◌<◌, ◌≤◌, length};
ghost use Rattle.table.specs.Layout.{rows_room, exits_room};
ghost use Rattle.cfg.specs.Search.{is_node, Keeps, Zeros, Cleared};

use table::{Field, exit_cell, row_cell};

// Whether region r is marked and not white (19).
fn is_node(rows: &[u32], r: usize) -> bool
    requires r_in_bounds { rows_room (r + 1) ≤ length rows.now }
    requires r_bound { r < 65536 }
    ensures { result ≡ is_node rows.now r }
{
    if rows[row_cell(r, Field::Colour)] == 19 {
        return false;
    }
    rows[row_cell(r, Field::Mark)] != 0
}

// Sets the eight exits of region r to 0.
fn clear_exits(r: usize, exits: &mut [u32])
    requires r_in_bounds { exits_room (r + 1) ≤ length exits.old }
    requires r_bound { r < 65536 }
    ensures { Zeros r 8 exits.old exits.new }
{
    for s in 0..8 {
        let cell = exit_cell(r, s);
        exits[cell] = 0;
    }
}

// Keeps region r's mark and exits where it is a node, and sets them to 0 where it is none.
fn keep_region(r: usize, rows: &mut [u32], exits: &mut [u32])
    requires r_in_bounds { rows_room (r + 1) ≤ length rows.old }
    requires r_in_bounds_2 { exits_room (r + 1) ≤ length exits.old }
    requires r_bound { r < 65536 }
    ensures { Keeps r rows.old exits.old rows.new exits.new }
{
    if is_node(rows, r) {
        return;
    }
    let cell = row_cell(r, Field::Mark);
    rows[cell] = 0;
    clear_exits(r, exits);
}

// The same for the n regions.
pub fn keep_nodes(n: usize, rows: &mut [u32], exits: &mut [u32])
    requires n_in_bounds { rows_room n ≤ length rows.old }
    requires n_in_bounds_2 { exits_room n ≤ length exits.old }
    requires n_bound { n ≤ 65536 }
    ensures { Cleared n rows.old exits.old rows.new exits.new }
{
    for r in 0..n {
        keep_region(r, rows, exits);
    }
}
