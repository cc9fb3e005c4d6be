// The entry points for C and Rust: a slice is a pointer and a length; 0 or a refusal's number is returned, and the values
// that go with it are written into `answer` (rules 12.1, 12.8).
#![tactic(auto)]

pub mod p6;
pub mod run_history;
pub mod run_picture;
pub mod run_visits;

ghost use Rattle.std.specs.Prelude.{◌≡◌, ◌∷◌, [], ◌++◌, ◌-◌, ◌≤◌, length, replicate};
ghost use Rattle.base.specs.Lent.{lent};
ghost use Rattle.base.specs.Numbers.{number_of, values_of};
ghost use Rattle.base.specs.Refusal.{number_of_refusal, place_cells};
ghost use Rattle.picture.specs.Picture.{picture};
ghost use Rattle.machine.specs.Machine.{asks};
ghost use Rattle.machine.specs.Held as held;
ghost use Rattle.interpreter.specs.Outcome as running;
ghost use Rattle.piet_c.specs.Exported.{Exported};
ghost use Rattle.piet_c.specs.Calls.{ClassifyCall, LabelCall, BuildCall, table_room, RunCall, ForeverCall};

use base::fill::fill;
use base::refusal::Refusal;
use interpreter::Ended;

// The cells of a run's answer (rule 8.5).
const RUN_ANSWER: usize = 12;

fn put_one(answer: &mut [u64], value: u64)
    requires { 1 ≤ length answer.old }
    ensures { answer.new ≡ lent (value ∷ []) answer.old }
{
    answer[0] = value;
}

fn put_two(answer: &mut [u64], first: u64, second: u64)
    requires { 2 ≤ length answer.old }
    ensures { answer.new ≡ lent (first ∷ second ∷ []) answer.old }
{
    answer[0] = first;
    answer[1] = second;
}

// Writes the numbers of a run's result.
fn put_ended(answer: &mut [u64], e: Ended)
    requires { running.result_cells ≤ length answer.old }
    ensures { answer.new ≡ lent (running.result_of e) answer.old }
{
    let stop = e.stop;
    let at = e.at;
    let core = at.core;
    let pointers = core.pointers;
    let reading = core.reading;
    let skips = reading.skips;
    answer[0] = u64::from(stop);
    answer[1] = at.steps;
    answer[2] = at.region as u64;
    answer[3] = pointers.dp as u64;
    answer[4] = pointers.cc as u64;
    answer[5] = core.depth as u64;
    answer[6] = core.outputs as u64;
    answer[7] = reading.used as u64;
    answer[8] = skips.ended;
    answer[9] = skips.blank;
    answer[10] = skips.not_number;
    answer[11] = skips.out_of_range;
}

// Writes zeros, as many as a call's values, and gives the refusal's number.
fn refuse(answer: &mut [u64], cells: usize, refusal: Refusal) -> u32
    requires { cells ≤ length answer.old }
    ensures { (result ≡ number_of_refusal refusal) × (answer.new ≡ lent (replicate cells 0) answer.old) }
{
    fill(answer, 0, cells, 0);
    refusal.number()
}

// The same with the place that the refusal names in the first two cells.
fn refuse_at(answer: &mut [u64], cells: usize, refusal: Refusal) -> u32
    requires { (2 ≤ cells) × (cells ≤ length answer.old) }
    ensures { (result ≡ number_of_refusal refusal) × (answer.new ≡ lent (place_cells refusal ++ replicate (cells - 2) 0) answer.old) }
{
    let number = refuse(answer, cells, refusal);
    let (first, second) = refusal.place();
    put_two(answer, first as u64, second as u64);
    number
}

// Writes the values of a run's answer, and gives its number.
fn put_ran(answer: &mut [u64], r: Result<Ended, Refusal>) -> u32
    requires { running.result_cells ≤ length answer.old }
    ensures { (result ≡ number_of (running.numbered r)) × (answer.new ≡ lent (values_of (running.numbered r)) answer.old) }
{
    match r {
        Ok(e) => {
            put_ended(answer, e);
            0
        }
        Err(refusal) => refuse(answer, RUN_ANSWER, refusal),
    }
}

// The colour numbers of pixels; answer: row, column of the first pixel that is not in the table.
pub fn piet_classify(
    pixels: &[u8],
    height: usize,
    width: usize,
    setting: u8,
    colours: &mut [u8],
    answer: &mut [u64],
) -> u32
    ensures { Exported 2 (ClassifyCall pixels.now height width setting colours.old) colours.old answer.old result colours.new answer.new }
{
    if answer.len() < 2 {
        return 4;
    }
    match colour::classify::classify(pixels, height, width, setting, colours) {
        Ok(()) => {
            put_two(answer, 0, 0);
            0
        }
        Err(refusal) => refuse_at(answer, 2, refusal),
    }
}

// The label of a region; answer: its length.
pub fn piet_label(colour: u8, row: usize, column: usize, out: &mut [u8], answer: &mut [u64]) -> u32
    ensures { Exported 1 (LabelCall colour row column out.old) out.old answer.old result out.new answer.new }
{
    if answer.len() < 1 {
        return 4;
    }
    match colour::label::label(colour, row, column, out) {
        Ok(length) => {
            put_one(answer, length as u64);
            0
        }
        Err(refusal) => refuse(answer, 1, refusal),
    }
}

// The table of a picture in an edition; answer: the count of regions, the index of the first colour above 19.
pub fn piet_build(
    colours: &[u8],
    height: usize,
    width: usize,
    codel: usize,
    edition: u32,
    map: &mut [u32],
    rows: &mut [u32],
    exits: &mut [u32],
    work: &mut [u32],
    answer: &mut [u64],
) -> u32
    ensures { Exported 2 (BuildCall edition (picture height width codel colours.now) (table_room map.old rows.old exits.old work.old)) (table_room map.old rows.old exits.old work.old) answer.old result (table_room map.new rows.new exits.new work.new) answer.new }
{
    if answer.len() < 2 {
        return 4;
    }
    match cfg::build(
        colours, height, width, codel, edition, map, rows, exits, work,
    ) {
        Ok(regions) => {
            put_two(answer, regions as u64, 0);
            0
        }
        Err(refusal) => refuse_at(answer, 2, refusal),
    }
}

// Whether every node of a table has an exit; answer: 1 for yes, 0 for no.
pub fn piet_determine_runs_forever(n: usize, rows: &[u32], exits: &[u32], answer: &mut [u64]) -> u32
    ensures { Exported 1 (ForeverCall n rows.now exits.now) tt answer.old result tt answer.new }
{
    if answer.len() < 1 {
        return 4;
    }
    match interpreter::determine_runs_forever(n, rows, exits) {
        Ok(forever) => {
            put_one(answer, forever as u64);
            0
        }
        Err(refusal) => refuse(answer, 1, refusal),
    }
}

// A run over a table in an edition; answer: status, steps, region, dp, cc, depth, outputs, used, and the number lines
// skipped: at the end of the input, blank, not a number, out of range.
pub fn piet_run(
    n: usize,
    rows: &[u32],
    exits: &[u32],
    edition: u32,
    limit: u64,
    abstract_mode: bool,
    input: &[u8],
    stack: &mut [i64],
    kinds: &mut [u8],
    values: &mut [i64],
    answer: &mut [u64],
) -> u32
    ensures { Exported running.result_cells (RunCall n rows.now exits.now (asks edition limit abstract_mode input.now) (held.slices stack.old kinds.old values.old)) (held.slices stack.old kinds.old values.old) answer.old result (held.slices stack.new kinds.new values.new) answer.new }
{
    if answer.len() < RUN_ANSWER {
        return 4;
    }
    let ran = interpreter::run(
        n,
        rows,
        exits,
        edition,
        limit,
        abstract_mode,
        input,
        stack,
        kinds,
        values,
    );
    put_ran(answer, ran)
}
