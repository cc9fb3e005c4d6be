// One step: which exit is taken, and where it leads.
ghost use Rattle.std.specs.Prelude.{◌≡◌, List, ℕ, ◌+◌, ◌^◌, ◌<◌, ◌≤◌, length};
ghost use Rattle.flow.specs.Pointer.{Valid};
ghost use Rattle.table.specs.Layout.{rows_room, exits_room};
ghost use Rattle.table.specs.ExitNumber.{target_of};
ghost use Rattle.machine.specs.Machine.{given, JudgedIn};
ghost use Rattle.machine.specs.Held.{slices};
ghost use Rattle.interpreter.specs.Table.{exit_of, ends};
ghost use Rattle.interpreter.specs.Resume.{Placed};
ghost use Rattle.interpreter.specs.Moving.{Gone, Stepped};

use crate::State;
use crate::good_table::GoodTable;
use flow::PointerState;
use machine::{Op, Stop, Terms};
use table::{Field, LOST_SLIDE, exit_cell, instruction_of, row_cell, state_of, target_of};

// What a step comes to that is made: the place that it reaches, and the exit by which it does.
#[derive(Clone, Copy)]
pub struct Moved {
    pub next: State,
    pub by: u32,
}

// The first exit of a region that is not 0, in the order of the attempts, or 0.
fn open_exit(exits: &[u32], region: u32, p: PointerState) -> u32
    requires region_bound { (region < 65536) × (exits_room (region + 1) ≤ length exits.now) }
    requires valid { Valid p }
    ensures { result ≡ exit_of exits.now region p }
{
    for k in 0..8 {
        let tried = p.attempt(k);
        let w = exits[exit_cell(region as usize, tried.number() as usize)];
        if w != 0 {
            return w;
        }
    }
    0
}

// Through the exit w: the pointers are set, and its instruction is executed with the size of the block just left.
fn go_through(
    n: usize,
    rows: &[u32],
    terms: Terms,
    input: &[u8],
    stack: &mut [i64],
    kinds: &mut [u8],
    values: &mut [i64],
    at: State,
    w: u32,
) -> Result<Moved, Stop>
    requires n_bound { (n ≤ 65536) × (rows_room n ≤ length rows.now) }
    requires placed { Placed n (slices stack.old kinds.old values.old) at }
    requires judged_in { JudgedIn (given terms input.now) at.core.reading }
    requires w_nonzero { (0 < w) × (target_of w < n) × (at.steps + 1 < 2 ^ 64) }
    ensures { (exits : List ℕ) → Gone n rows.now exits (given terms input.now) w (slices stack.old kinds.old values.old) at (slices stack.new kinds.new values.new) result }
{
    let region = at.region as usize;
    let cell = row_cell(region, Field::Size);
    let size = rows[cell];
    let core = at.core;
    let target = target_of(w);
    let p = PointerState::of_number(state_of(w));
    let op = Op::from(instruction_of(w));
    let next = machine::exec(
        op,
        size,
        terms,
        input,
        stack,
        kinds,
        values,
        core.at_pointers(p),
    )?;
    Ok(Moved {
        next: State {
            region: target,
            steps: at.steps + 1,
            core: next,
        },
        by: w,
    })
}

// Whether no step is made by an exit: there is none, or it is a lost slide. The edition is not asked for: `run` accepts a
// table with a lost slide in edition 2 alone.
fn ends(w: u32) -> bool
    ensures { result ≡ ends w }
{
    if w == 0 {
        return true;
    }
    w == LOST_SLIDE
}

// One step: NeedsInput where input is awaited, Completed where no attempt is open or a lost slide comes first, else through
// the first open exit.
pub fn step(
    table: GoodTable,
    terms: Terms,
    input: &[u8],
    stack: &mut [i64],
    kinds: &mut [u8],
    values: &mut [i64],
    at: State,
) -> Result<Moved, Stop>
    requires placed { Placed table.n (slices stack.old kinds.old values.old) at }
    requires judged_in { JudgedIn (given terms input.now) at.core.reading }
    requires steps_bound { at.steps + 1 < 2 ^ 64 }
    ensures { Stepped table.entry.n table.entry.rows.now table.entry.exits.now (given terms input.now) (slices stack.old kinds.old values.old) at (slices stack.new kinds.new values.new) result }
{
    let core = at.core;
    if core.reading.awaiting {
        return Err(Stop::NeedsInput);
    }
    let region = at.region;
    let pointers = core.pointers;
    let w = open_exit(table.exits, region, pointers);
    if ends(w) {
        return Err(Stop::Completed);
    }
    go_through(
        table.n, table.rows, terms, input, stack, kinds, values, at, w,
    )
}
