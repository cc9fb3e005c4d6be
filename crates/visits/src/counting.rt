// A run from the start whose visits are counted.
ghost use Rattle.std.specs.Prelude.{◌+◌, ◌^◌, ◌<◌, ◌≤◌, length};
ghost use Rattle.machine.specs.Machine.{given};
ghost use Rattle.machine.specs.Held.{slices};
ghost use Rattle.interpreter.specs.Outcome.{job_of};
ghost use Rattle.interpreter.specs.Resume.{Started};
ghost use Rattle.visits.specs.Counted.{Counted};

use base::fill::fill;
use interpreter::{Ended, GoodTable, run_observed};
use machine::Terms;

// From the start until a stop, with a cell a region, whatever the cells held. The start is a visit of region 0.
pub fn count_visits(
    table: GoodTable,
    terms: Terms,
    input: &[u8],
    stack: &mut [i64],
    kinds: &mut [u8],
    values: &mut [i64],
    visits: &mut [u64],
) -> Ended
    requires n_in_bounds { (table.n ≤ length visits.old) × (terms.limit + 1 < 2 ^ 64) }
    ensures started { Started table.entry.n table.entry.rows.now table.entry.exits.now (given terms input.now) (slices stack.old kinds.old values.old) (slices stack.new kinds.new values.new) result }
    ensures counted { Counted table.entry.n (job_of table.entry.rows.now table.entry.exits.now (given terms input.now) (slices stack.old kinds.old values.old)) visits.old visits.new }
{
    fill(visits, 0, table.n, 0);
    visits[0] = 1;
    let mut unkept = [0u32; 0];
    run_observed(
        table,
        terms,
        input,
        stack,
        kinds,
        values,
        visits,
        &mut unkept,
    )
}
