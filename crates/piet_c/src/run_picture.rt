// The call from pixels to a run's result.
ghost use Rattle.std.specs.Prelude.{◌≡◌, ◌≤◌, length};
ghost use Rattle.base.specs.Lent.{lent};
ghost use Rattle.base.specs.Numbers.{number_of, values_of};
ghost use Rattle.machine.specs.Machine.{asks};
ghost use Rattle.piet.specs.RunPicture.{asked, lends, numbered};
ghost use Rattle.piet_c.specs.Exported.{Exported};
ghost use Rattle.piet_c.specs.Calls.{picture_cells, padded, PictureCall};

use crate::{RUN_ANSWER, put_ended, refuse_at};
use base::refusal::Refusal;
use piet::run_picture::{Pictured, run_picture};

// The cells of a picture's answer: a run's, and the count of regions.
const PICTURE_ANSWER: usize = RUN_ANSWER + 1;

// Writes the values of a picture's run, and gives the number: the run's and the count of regions, or the place of an
// unknown pixel and zeros.
fn put_pictured(answer: &mut [u64], r: Result<Pictured, Refusal>) -> u32
    requires { picture_cells ≤ length answer.old }
    ensures { (result ≡ number_of (padded picture_cells (numbered r))) × (answer.new ≡ lent (values_of (padded picture_cells (numbered r))) answer.old) }
{
    match r {
        Ok(pictured) => {
            put_ended(answer, pictured.ended);
            answer[RUN_ANSWER] = pictured.regions as u64;
            0
        }
        Err(refusal) => refuse_at(answer, PICTURE_ANSWER, refusal),
    }
}

// A run of a picture in an edition; answer: the values of `piet_run`, the count of regions; or row, column of the first pixel
// that is not in the table.
pub fn piet_run_picture(
    pixels: &[u8],
    height: usize,
    width: usize,
    setting: u8,
    codel: usize,
    edition: u32,
    limit: u64,
    abstract_mode: bool,
    input: &[u8],
    colours: &mut [u8],
    map: &mut [u32],
    rows: &mut [u32],
    exits: &mut [u32],
    work: &mut [u32],
    stack: &mut [i64],
    kinds: &mut [u8],
    values: &mut [i64],
    answer: &mut [u64],
) -> u32
    ensures { Exported picture_cells (PictureCall (asked pixels.now height width setting codel (asks edition limit abstract_mode input.now)) (lends colours.old map.old rows.old exits.old work.old stack.old kinds.old values.old)) (lends colours.old map.old rows.old exits.old work.old stack.old kinds.old values.old) answer.old result (lends colours.new map.new rows.new exits.new work.new stack.new kinds.new values.new) answer.new }
{
    if answer.len() < PICTURE_ANSWER {
        return 4;
    }
    let ran = run_picture(
        pixels,
        height,
        width,
        setting,
        codel,
        edition,
        limit,
        abstract_mode,
        input,
        colours,
        map,
        rows,
        exits,
        work,
        stack,
        kinds,
        values,
    );
    put_pictured(answer, ran)
}
