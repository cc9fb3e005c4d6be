// Steps until a stop, from any place and from the start.
ghost use Rattle.std.specs.Prelude.{◌≡◌, ◌+◌, ◌-◌, ◌^◌, ◌<◌, length, get_or};
ghost use Rattle.machine.specs.Machine.{given, JudgedIn, asks};
ghost use Rattle.machine.specs.Held.{slices};
ghost use Rattle.interpreter.specs.Resume.{Placed, Resumed, Started, Resumable};
ghost use Rattle.interpreter.specs.Moving.{Begun};
ghost use Rattle.interpreter.specs.Outcome.{Outcome};
ghost use Rattle.interpreter.specs.Recorded.{Recorded};
ghost use Rattle.interpreter.specs.Observed.{visited, CanCount, kept_at, ObservedFrom, ObservedAll};

use crate::good_table::GoodTable;
use crate::stepping::step;
use crate::{Ended, State};
use base::edition::Edition;
use base::refusal::Refusal;
use flow::PointerState;
use machine::{Core, Reading, Skips, Stop, Terms};

// One visit more of a region, where it has a cell.
fn count_visit(visits: &mut [u64], region: u32)
    requires { region < length visits.old → get_or visits.old region 0 + 1 < 2 ^ 64 }
    ensures { visits.new ≡ visited region visits.old }
{
    let cell = region as usize;
    if cell < visits.len() {
        visits[cell] += 1;
    }
}

// The exit of the step after so many, where there is a cell for it.
fn keep_exit(taken: &mut [u32], made: u64, exit: u32)
    ensures { taken.new ≡ kept_at made exit taken.old }
{
    let cell = made as usize;
    if cell < taken.len() {
        taken[cell] = exit;
    }
}

// Steps from a place until a stop; each that is taken is a visit of the region that it reaches, and its exit is kept. This is the one
// loop of every call of a run: with a second one a step would be a call of its own, and take three times as long.
fn resume_observed(
    table: GoodTable,
    terms: Terms,
    input: &[u8],
    stack: &mut [i64],
    kinds: &mut [u8],
    values: &mut [i64],
    visits: &mut [u64],
    taken: &mut [u32],
    from: State,
) -> Ended
    requires placed { Placed table.n (slices stack.old kinds.old values.old) from }
    requires judged_in { JudgedIn (given terms input.now) from.core.reading }
    requires can_count { CanCount table.n visits.old (terms.limit - from.steps) }
    ensures resumed { Resumed table.entry.n table.entry.rows.now table.entry.exits.now (given terms input.now) (slices stack.old kinds.old values.old) from (slices stack.new kinds.new values.new) result }
    ensures observed_from { ObservedFrom table.entry.rows.now table.entry.exits.now (given terms input.now) (slices stack.old kinds.old values.old) from visits.old visits.new taken.old taken.new }
{
    let begun = from.steps;
    let mut at = from;
    while at.steps < terms.limit {
        match step(table, terms, input, stack, kinds, values, at) {
            Ok(moved) => {
                count_visit(visits, moved.next.region);
                keep_exit(taken, at.steps - begun, moved.by);
                at = moved.next;
            }
            Err(stop) => {
                return Ended { stop, at };
            }
        }
    }
    Ended {
        stop: Stop::MaxSteps,
        at,
    }
}

// Steps from a place until a stop.
pub fn resume(
    table: GoodTable,
    terms: Terms,
    input: &[u8],
    stack: &mut [i64],
    kinds: &mut [u8],
    values: &mut [i64],
    from: State,
) -> Ended
    requires placed { Placed table.n (slices stack.old kinds.old values.old) from }
    requires judged_in { JudgedIn (given terms input.now) from.core.reading }
    ensures { Resumed table.entry.n table.entry.rows.now table.entry.exits.now (given terms input.now) (slices stack.old kinds.old values.old) from (slices stack.new kinds.new values.new) result }
{
    let mut uncounted = [0u64; 0];
    let mut unkept = [0u32; 0];
    resume_observed(
        table,
        terms,
        input,
        stack,
        kinds,
        values,
        &mut uncounted,
        &mut unkept,
        from,
    )
}

// The start: region 0, dp right, cc left, an empty stack, 0 steps. The slices are cleared for it.
pub fn begin(stack: &mut [i64], kinds: &mut [u8], values: &mut [i64]) -> State
    ensures { Begun (slices stack.old kinds.old values.old) (slices stack.new kinds.new values.new) result }
{
    stack.fill(0);
    kinds.fill(0);
    values.fill(0);
    State {
        region: 0,
        steps: 0,
        core: Core {
            pointers: PointerState { dp: 0, cc: 0 },
            depth: 0,
            outputs: 0,
            reading: Reading {
                used: 0,
                awaiting: false,
                skips: Skips {
                    ended: 0,
                    blank: 0,
                    not_number: 0,
                    out_of_range: 0,
                },
            },
        },
    }
}

// From the start until a stop. The start itself is no visit here; a run that nobody observes is lent no cells.
pub fn run_observed(
    table: GoodTable,
    terms: Terms,
    input: &[u8],
    stack: &mut [i64],
    kinds: &mut [u8],
    values: &mut [i64],
    visits: &mut [u64],
    taken: &mut [u32],
) -> Ended
    requires can_count { CanCount table.n visits.old terms.limit }
    ensures started { Started table.entry.n table.entry.rows.now table.entry.exits.now (given terms input.now) (slices stack.old kinds.old values.old) (slices stack.new kinds.new values.new) result }
    ensures observed_all { ObservedAll table.entry.rows.now table.entry.exits.now (given terms input.now) (slices stack.old kinds.old values.old) visits.old visits.new taken.old taken.new }
{
    let from = begin(stack, kinds, values);
    resume_observed(
        table, terms, input, stack, kinds, values, visits, taken, from,
    )
}

// The run of any table, with the edition by its number: refusal 15, refusal 10, or where it stopped, and in `taken` the exit of each step,
// as far as there are cells.
pub fn run_history(
    n: usize,
    rows: &[u32],
    exits: &[u32],
    edition: u32,
    limit: u64,
    abstract_mode: bool,
    input: &[u8],
    stack: &mut [i64],
    kinds: &mut [u8],
    values: &mut [i64],
    taken: &mut [u32],
) -> Result<Ended, Refusal>
    ensures recorded { Recorded n rows.now exits.now (asks edition limit abstract_mode input.now) (slices stack.old kinds.old values.old) taken.old result (slices stack.new kinds.new values.new) taken.new }
    ensures resumable { Resumable n rows.now exits.now (asks edition limit abstract_mode input.now) (slices stack.old kinds.old values.old) result (slices stack.new kinds.new values.new) }
{
    let known = Edition::try_from(edition)?;
    let table = GoodTable::checked(n, rows, exits, known)?;
    let terms = Terms {
        edition: known,
        limit,
        abstract_mode,
    };
    let mut uncounted = [0u64; 0];
    Ok(run_observed(
        table,
        terms,
        input,
        stack,
        kinds,
        values,
        &mut uncounted,
        taken,
    ))
}

// The same with no exit kept.
pub fn run(
    n: usize,
    rows: &[u32],
    exits: &[u32],
    edition: u32,
    limit: u64,
    abstract_mode: bool,
    input: &[u8],
    stack: &mut [i64],
    kinds: &mut [u8],
    values: &mut [i64],
) -> Result<Ended, Refusal>
    ensures outcome { Outcome n rows.now exits.now (asks edition limit abstract_mode input.now) (slices stack.old kinds.old values.old) result (slices stack.new kinds.new values.new) }
    ensures resumable { Resumable n rows.now exits.now (asks edition limit abstract_mode input.now) (slices stack.old kinds.old values.old) result (slices stack.new kinds.new values.new) }
{
    let mut unkept = [0u32; 0];
    run_history(
        n,
        rows,
        exits,
        edition,
        limit,
        abstract_mode,
        input,
        stack,
        kinds,
        values,
        &mut unkept,
    )
}
