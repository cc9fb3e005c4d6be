// The run program's answer to a job: the text that it prints, in a lent slice.
#![tactic(auto)]

ghost use Rattle.std.specs.Prelude.{◌≡◌, ◌≤◌, length};
ghost use Rattle.base.specs.Lent.{Put, lent};
ghost use Rattle.colour.specs.Label.{label_of, padded};
ghost use Rattle.piet.specs.RunPicture as running;
ghost use Rattle.piet.specs.RunPicture.{lends};
ghost use Rattle.job.specs.Outcome.{LaidOut, Reads, content_of};
ghost use Rattle.answer.specs.Program.{asked_of, Prints};
ghost use Rattle.answer.specs.Answer.{Result, Outcome};
ghost use Rattle.answer.specs.Printing.{Starts, Legal, HasLabel, label_in, lines_of, Printable};

use base::edition::RUST_EDITION;
use base::refusal::Refusal;
use colour::setting::REFUSE_UNKNOWN;
use interpreter::Ended;
use job::Parts;
use piet::run_picture::{Pictured, run_picture};
use report::{Figures, put_refusal, put_result};
use table::{Field, row_cell};

// Room for the longest text: 256 values and 256 outputs.
const ROOM: usize = 16384;

// The label of a region by its row's numbers, at the start of out, and its length.
fn put_label(colour: u32, row: u32, column: u32, out: &mut [u8]) -> usize
    requires { Legal colour row column × (22 ≤ length out.old) }
    ensures { Starts out.new result (label_of colour row column) × (result ≤ 22) × (out.new ≡ lent (padded (label_of colour row column)) out.old) }
{
    colour::label::label(colour as u8, row as usize, column as usize, out).unwrap()
}

// The label of a region of the table.
pub fn label_region(rows: &[u32], region: usize, out: &mut [u8]) -> usize
    requires { HasLabel rows.now region × (22 ≤ length out.old) }
    ensures { Starts out.new result (label_in rows.now region) × (result ≤ 22) × (out.new ≡ lent (padded (label_in rows.now region)) out.old) }
{
    let colour = rows[row_cell(region, Field::Colour)];
    let row = rows[row_cell(region, Field::FirstRow)];
    let column = rows[row_cell(region, Field::FirstColumn)];
    put_label(colour, row, column, out)
}

// The five lines of where a run ended.
fn put_ended(
    out: &mut [u8],
    e: Ended,
    rows: &[u32],
    stack: &[i64],
    kinds: &[u8],
    values: &[i64],
) -> usize
    requires { Printable (length out.old) e rows.now stack.now kinds.now values.now }
    ensures { Put out.old 0 (lines_of e rows.now stack.now kinds.now values.now) result out.new }
{
    let stop = e.stop;
    let at = e.at;
    let core = at.core;
    let pointers = core.pointers;
    let mut label = [0u8; 22];
    let n = label_region(rows, at.region as usize, &mut label);
    let f = Figures {
        status: u64::from(stop),
        steps: at.steps,
        dp: pointers.dp as u64,
        cc: pointers.cc as u64,
        depth: core.depth,
        outputs: core.outputs,
    };
    put_result(out, f, &label[..n], stack, kinds, values)
}

// The run of a job's picture, as `p` says: unknown pixels refused, edition 1, its pixels and its input as parts of the job.
pub fn run_parts(
    job: &[u8],
    p: Parts,
    colours: &mut [u8],
    map: &mut [u32],
    rows: &mut [u32],
    exits: &mut [u32],
    work: &mut [u32],
    stack: &mut [i64],
    kinds: &mut [u8],
    values: &mut [i64],
) -> Result<Pictured, Refusal>
    requires { LaidOut job.now p }
    ensures { running.Outcome (asked_of (content_of job.now p)) (lends colours.old map.old rows.old exits.old work.old stack.old kinds.old values.old) result (lends colours.new map.new rows.new exits.new work.new stack.new kinds.new values.new) }
{
    let pixels = p.pixels;
    let settings = p.settings;
    let input = p.input;
    let end = p.end;
    run_picture(
        &job[pixels..settings],
        p.height,
        p.width,
        REFUSE_UNKNOWN,
        p.codel,
        RUST_EDITION,
        p.limit,
        p.abstracted,
        &job[input..end],
        colours,
        map,
        rows,
        exits,
        work,
        stack,
        kinds,
        values,
    )
}

// Runs a job that was read, with room for 512 pixels, 256 stack cells and 256 outputs.
fn run_job(job: &[u8], out: &mut [u8], p: Parts) -> usize
    requires { (16384 ≤ length out.old) × Reads job.now p }
    ensures { Prints Result job.now out.old result out.new }
{
    let mut colours = [0u8; 512];
    let mut map = [0u32; 512];
    let mut rows = [0u32; 2560];
    let mut exits = [0u32; 4096];
    let mut work = [0u32; 512];
    let mut stack = [0i64; 256];
    let mut kinds = [0u8; 256];
    let mut values = [0i64; 256];
    let pictured = run_parts(
        job,
        p,
        &mut colours,
        &mut map,
        &mut rows,
        &mut exits,
        &mut work,
        &mut stack,
        &mut kinds,
        &mut values,
    );
    match pictured {
        Ok(pictured) => put_ended(out, pictured.ended, &rows, &stack, &kinds, &values),
        Err(refusal) => put_refusal(out, refusal.number() as u64),
    }
}

// The answer to a job, and its length; nothing where there is too little room for the longest one.
pub fn answer(job: &[u8], out: &mut [u8]) -> usize
    ensures { Outcome job.now out.old result out.new }
{
    if out.len() < ROOM {
        return 0;
    }
    match job::read_job(job) {
        Ok(p) => run_job(job, out, p),
        Err(refusal) => put_refusal(out, refusal.number() as u64),
    }
}
