// How often each codel's block was entered by the run of a job's picture, as text in a lent slice of bytes.
#![tactic(auto)]

ghost use Rattle.std.specs.Prelude.{◌≡◌, ◌+◌, ◌*◌, ◌≤◌, length};
ghost use Rattle.base.specs.Lent.{Put};
ghost use Rattle.picture.specs.Picture.{ceil};
ghost use Rattle.job.specs.Outcome.{Reads, content_of};
ghost use Rattle.report.specs.Wrote.{Wrote};
ghost use Rattle.answer.specs.Program.{Prints};
ghost use Rattle.shade.specs.Shade.{entry_text, Shaded, Outcome};
ghost use Rattle.shade.specs.Counted.{still, cells_text, Printable, PrintablePicture, JobTable, PutShaded};

use answer::run_parts;
use base::edition::RUST_EDITION;
use base::put::{put_number, put_word};
use job::Parts;
use picture::shape::shape_of;
use report::put_refusal;
use visits::run_visits;

// Room for the longest text: 512 counts of 20 digits, each with a byte after it, take 10,752 bytes.
const ROOM: usize = 16384;

// A codel's count, with a newline after it where its row ends, and else a blank.
fn put_codel(out: &mut [u8], at: usize, times: u64, last: bool) -> usize
    requires { at + 21 ≤ length out.old }
    ensures { Wrote out.old at (entry_text times last) result out.new 21 }
{
    let next = put_number(out, at, times);
    if last {
        return put_word(out, next, b"\n");
    }
    put_word(out, next, b" ")
}

// The counts of so many codels in rows of so many columns, at the start of out: each codel has that of its region.
fn put_counts(out: &mut [u8], map: &[u32], visits: &[u64], codels: usize, cols: usize) -> usize
    requires { Printable (length out.old) map.now (length visits.now) codels cols }
    ensures { Wrote out.old 0 (cells_text map.now visits.now cols codels) result out.new (21 * codels) }
{
    let mut next: usize = 0;
    for i in 0..codels {
        let region = map[i] as usize;
        next = put_codel(out, next, visits[region], (i + 1) % cols == 0);
    }
    next
}

// The counts of a picture's codels, by its sides and its codel's width.
fn put_picture(
    out: &mut [u8],
    map: &[u32],
    visits: &[u64],
    height: usize,
    width: usize,
    codel: usize,
) -> usize
    requires { PrintablePicture (length out.old) map.now (length visits.now) height width codel }
    ensures { Put out.old 0 (cells_text map.now visits.now (ceil width codel) (ceil height codel * ceil width codel)) result out.new }
{
    let s = shape_of(height, width, codel);
    put_counts(out, map, visits, s.rows * s.cols, s.cols)
}

// Counts the run of a table that was built from a job's picture, and prints the counts. The one refusal left is that of the
// limit: the table is the picture's own, and there is a cell for each region.
fn put_visits(
    job: &[u8],
    out: &mut [u8],
    p: Parts,
    regions: usize,
    map: &[u32],
    rows: &[u32],
    exits: &[u32],
) -> usize
    requires { (16384 ≤ length out.old) × Reads job.now p × JobTable (content_of job.now p) regions map.now rows.now exits.now }
    ensures { PutShaded (content_of job.now p) out.old result out.new }
{
    let mut stack = [0i64; 256];
    let mut kinds = [0u8; 256];
    let mut values = [0i64; 256];
    let mut visits = [0u64; 512];
    let mut unvisited = [0u32; 512];
    let input = p.input;
    let end = p.end;
    let visited = run_visits(
        regions,
        rows,
        exits,
        RUST_EDITION,
        p.limit,
        p.abstracted,
        &job[input..end],
        &mut stack,
        &mut kinds,
        &mut values,
        &mut visits,
        &mut unvisited,
    );
    match visited {
        Ok(_) => put_picture(out, map, &visits, p.height, p.width, p.codel),
        Err(refusal) => put_refusal(out, refusal.number() as u64),
    }
}

// The parts of a job with no step to make. The refusals and the table of its picture go by no limit.
fn still(p: Parts) -> Parts
    ensures { result ≡ still p }
{
    Parts { limit: 0, ..p }
}

// Builds the table of a job's picture, with room for 512 pixels, by a run of no step, and counts the job's own run over it.
fn shade_job(job: &[u8], out: &mut [u8], p: Parts) -> usize
    requires { (16384 ≤ length out.old) × Reads job.now p }
    ensures { Prints Shaded job.now out.old result out.new }
{
    let mut colours = [0u8; 512];
    let mut map = [0u32; 512];
    let mut rows = [0u32; 2560];
    let mut exits = [0u32; 4096];
    let mut work = [0u32; 512];
    let mut stack = [0i64; 256];
    let mut kinds = [0u8; 256];
    let mut values = [0i64; 256];
    let pictured = run_parts(
        job,
        still(p),
        &mut colours,
        &mut map,
        &mut rows,
        &mut exits,
        &mut work,
        &mut stack,
        &mut kinds,
        &mut values,
    );
    match pictured {
        Ok(pictured) => put_visits(job, out, p, pictured.regions, &map, &rows, &exits),
        Err(refusal) => put_refusal(out, refusal.number() as u64),
    }
}

// The counts for a job, and the text's length; nothing where there is too little room for the longest one.
pub fn shade(job: &[u8], out: &mut [u8]) -> usize
    ensures { Outcome job.now out.old result out.new }
{
    if out.len() < ROOM {
        return 0;
    }
    match job::read_job(job) {
        Ok(p) => shade_job(job, out, p),
        Err(refusal) => put_refusal(out, refusal.number() as u64),
    }
}
