// The call that counts a run's visits.
ghost use Rattle.std.specs.Prelude.{◌≡◌, ◌≤◌, length};
ghost use Rattle.base.specs.Lent.{lent};
ghost use Rattle.base.specs.Numbers.{number_of, values_of};
ghost use Rattle.machine.specs.Machine.{asks};
ghost use Rattle.visits.specs.Outcome.{lends, visit_cells, numbered};
ghost use Rattle.piet_c.specs.Exported.{Exported};
ghost use Rattle.piet_c.specs.Calls.{VisitsCall};

use crate::{RUN_ANSWER, put_ended, refuse};
use base::refusal::Refusal;
use visits::{Visited, run_visits};

// The cells of its answer: a run's, and the count of nodes never entered.
const VISITS_ANSWER: usize = RUN_ANSWER + 1;

// Writes the values of the answer, and gives its number; a refusal has zeros.
fn put_visited(answer: &mut [u64], r: Result<Visited, Refusal>) -> u32
    requires { visit_cells ≤ length answer.old }
    ensures { (result ≡ number_of (numbered r)) × (answer.new ≡ lent (values_of (numbered r)) answer.old) }
{
    match r {
        Ok(visited) => {
            put_ended(answer, visited.ended);
            answer[RUN_ANSWER] = visited.unvisited as u64;
            0
        }
        Err(refusal) => refuse(answer, VISITS_ANSWER, refusal),
    }
}

// A run over a table in an edition, with each region's visits counted; answer: the values of `piet_run`, the count of nodes never
// entered.
pub fn piet_visits(
    n: usize,
    rows: &[u32],
    exits: &[u32],
    edition: u32,
    limit: u64,
    abstract_mode: bool,
    input: &[u8],
    stack: &mut [i64],
    kinds: &mut [u8],
    values: &mut [i64],
    visits: &mut [u64],
    unvisited: &mut [u32],
    answer: &mut [u64],
) -> u32
    ensures { Exported visit_cells (VisitsCall n rows.now exits.now (asks edition limit abstract_mode input.now) (lends stack.old kinds.old values.old visits.old unvisited.old)) (lends stack.old kinds.old values.old visits.old unvisited.old) answer.old result (lends stack.new kinds.new values.new visits.new unvisited.new) answer.new }
{
    if answer.len() < VISITS_ANSWER {
        return 4;
    }
    let visited = run_visits(
        n,
        rows,
        exits,
        edition,
        limit,
        abstract_mode,
        input,
        stack,
        kinds,
        values,
        visits,
        unvisited,
    );
    put_visited(answer, visited)
}
