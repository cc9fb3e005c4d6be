// Whether every node has an exit that is not 0 (rule 7.5).
ghost use Rattle.std.specs.Prelude.{◌≡◌, ◌+◌, ◌<◌, ◌≤◌, length};
ghost use Rattle.table.specs.Layout.{rows_room, exits_room};
ghost use Rattle.interpreter.specs.Table.{every};
ghost use Rattle.interpreter.specs.Forever.{closed, onward, numbered, answer};

use crate::good_table::GoodTable;
use base::edition::Edition;
use base::refusal::Refusal;
use table::{Field, exit_cell, row_cell};

// Whether all eight exits of a region are 0.
fn closed(exits: &[u32], region: usize) -> bool
    requires { (region < 65536) × (exits_room (region + 1) ≤ length exits.now) }
    ensures { result ≡ closed exits.now region }
{
    for k in 0..8 {
        let w = exits[exit_cell(region, k)];
        if w != 0 {
            return false;
        }
    }
    true
}

// Whether a row is no node or has a non-zero exit.
fn onward(rows: &[u32], exits: &[u32], region: usize) -> bool
    requires { (region < 65536) × (rows_room (region + 1) ≤ length rows.now) × (exits_room (region + 1) ≤ length exits.now) }
    ensures { result ≡ onward rows.now exits.now region }
{
    let cell = row_cell(region, Field::Mark);
    let mark = rows[cell];
    if mark == 0 {
        return true;
    }
    !closed(exits, region)
}

// Whether all rows go onward.
fn all_onward(table: GoodTable) -> bool
    ensures { result ≡ every (onward table.entry.rows.now table.entry.exits.now) table.entry.n }
{
    for i in 0..table.n {
        if !onward(table.rows, table.exits, i) {
            return false;
        }
    }
    true
}

// Whether the table runs forever (rule 7.5); refusal 10 as for a run of edition 1 (rules 12.6, 16.7).
pub fn determine_runs_forever(n: usize, rows: &[u32], exits: &[u32]) -> Result<bool, Refusal>
    ensures { numbered result ≡ answer n rows.now exits.now }
{
    let table = GoodTable::checked(n, rows, exits, Edition::Rust)?;
    Ok(all_onward(table))
}
