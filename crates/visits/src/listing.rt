// The nodes that were never entered.
ghost use Rattle.std.specs.Prelude.{◌≡◌, ◌+◌, ◌<◌, ◌≤◌, length, get_or};
ghost use Rattle.table.specs.Layout.{rows_room};
ghost use Rattle.visits.specs.Visits.{never_entered};
ghost use Rattle.visits.specs.Counted.{Lists};

use base::fill::fill;
use table::{Field, row_cell};

// Whether a region is a node that was never entered.
fn never_entered(rows: &[u32], visits: &[u64], region: usize) -> bool
    requires { (region < 65536) × (rows_room (region + 1) ≤ length rows.now) × (region < length visits.now) }
    ensures { result ≡ never_entered rows.now (λ i. get_or visits.now i 0) region }
{
    let cell = row_cell(region, Field::Mark);
    let mark = rows[cell];
    if mark != 1 {
        return false;
    }
    visits[region] == 0
}

// Lists them in rising order, with zeros after them up to n cells, and answers how many they are.
pub fn list_unvisited(n: usize, rows: &[u32], visits: &[u64], unvisited: &mut [u32]) -> usize
    requires n_bound { (n ≤ 65536) × (rows_room n ≤ length rows.now) }
    requires n_in_bounds { (n ≤ length visits.now) × (n ≤ length unvisited.old) }
    ensures { Lists n rows.now visits.now unvisited.old unvisited.new result }
{
    let mut listed = 0;
    for i in 0..n {
        if never_entered(rows, visits, i) {
            unvisited[listed] = i as u32;
            listed += 1;
        }
    }
    fill(unvisited, listed, n, 0);
    listed
}
