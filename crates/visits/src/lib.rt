// Which regions a run enters, and how often (rule 17).
#![tactic(auto)]

mod counting;
mod listing;

ghost use Rattle.machine.specs.Machine.{asks};
ghost use Rattle.machine.specs.Held.{slices};
ghost use Rattle.interpreter.specs.Resume.{Resumable};
ghost use Rattle.visits.specs.Outcome.{Outcome, lends, ran_of};

use base::edition::Edition;
use base::refusal::Refusal;
use counting::count_visits;
use interpreter::{Ended, GoodTable};
use listing::list_unvisited;
use machine::Terms;

// Where the run stopped, and how many nodes it never entered.
#[derive(Clone, Copy)]
pub struct Visited {
    pub ended: Ended,
    pub unvisited: usize,
}

// The limit under which a count need not fit.
const UNCOUNTABLE: u64 = u64::MAX;

// The run of any table, as `run` gives it, with each region's visits counted and the nodes listed that have none. Where the call
// is refused, no slice is changed (rule 12.1).
pub fn run_visits(
    n: usize,
    rows: &[u32],
    exits: &[u32],
    edition: u32,
    limit: u64,
    abstract_mode: bool,
    input: &[u8],
    stack: &mut [i64],
    kinds: &mut [u8],
    values: &mut [i64],
    visits: &mut [u64],
    unvisited: &mut [u32],
) -> Result<Visited, Refusal>
    ensures outcome { Outcome n rows.now exits.now (asks edition limit abstract_mode input.now) (lends stack.old kinds.old values.old visits.old unvisited.old) result (lends stack.new kinds.new values.new visits.new unvisited.new) }
    ensures resumable { Resumable n rows.now exits.now (asks edition limit abstract_mode input.now) (slices stack.old kinds.old values.old) (ran_of result) (slices stack.new kinds.new values.new) }
{
    let known = Edition::try_from(edition)?;
    let table = GoodTable::checked(n, rows, exits, known)?;
    if limit == UNCOUNTABLE {
        return Err(Refusal::Limit);
    }
    if visits.len() < n {
        return Err(Refusal::Room);
    }
    if unvisited.len() < n {
        return Err(Refusal::Room);
    }
    let terms = Terms {
        edition: known,
        limit,
        abstract_mode,
    };
    let ended = count_visits(table, terms, input, stack, kinds, values, visits);
    let missed = list_unvisited(n, rows, visits, unvisited);
    Ok(Visited {
        ended,
        unvisited: missed,
    })
}
