// The slide over white in edition 2: it is lost where it comes to a codel with a dp that it had there (rule 16.8).
ghost use Rattle.std.specs.Prelude.{◌≡◌, ◌+◌, ◌*◌, ◌≤◌};
ghost use Rattle.base.specs.Decides.{Decides};
ghost use Rattle.flow.specs.Pointer.{Valid};
ghost use Rattle.picture.specs.Codels.{picture_in};
ghost use Rattle.picture.specs.Picture.{Inside};
ghost use Rattle.exit.specs.Slide.{Ends};
ghost use Rattle.exit.specs.Trail.{comes_back};
ghost use Rattle.exit.specs.Watched.{begun_at, Met, Noted, most_looks, Walks};

use crate::slide::{Landed, Sight};
use flow::PointerState;
use picture::grid::CodelGrid;

// One station of the slide that is kept, how many looks were taken, and the count of looks at which the present station
// is kept in its place: the powers of two (Brent). Once a power is no less than the way to the loop, nor than the loop, the
// kept station is met again after one round: so there is no record of stations, and a lost slide takes at most three
// times as many looks as there are stations on it.
#[derive(Clone, Copy)]
struct Watch {
    row: usize,
    col: usize,
    dp: u8,
    looks: usize,
    next: usize,
}

// Where a slide ends, and how many looks that took.
#[derive(Clone, Copy)]
struct Walked {
    end: Option<Landed>,
    looks: usize,
}

// The watch of a slide at its beginning: its first station is kept.
fn begun(row: usize, col: usize, dp: u8) -> Watch
    ensures { result ≡ begun_at row col dp }
{
    Watch {
        row,
        col,
        dp,
        looks: 0,
        next: 1,
    }
}

// Whether the kept station is met again.
fn meets(w: Watch, row: usize, col: usize, dp: u8) -> bool
    ensures { Decides (Met w row col dp) result }
{
    0 < w.looks && w.row == row && w.col == col && w.dp == dp
}

// The watch after one more look, from the station given.
fn noted(w: Watch, row: usize, col: usize, dp: u8) -> Watch
    requires { (w.looks ≤ most_looks) × (w.next ≤ 2 * most_looks + 1) }
    ensures { Noted w row col dp result }
{
    let looks = w.looks + 1;
    if w.looks == w.next {
        return Watch {
            row,
            col,
            dp,
            looks,
            next: 2 * w.next,
        };
    }
    Watch {
        row: w.row,
        col: w.col,
        dp: w.dp,
        looks,
        next: w.next,
    }
}

// The slide from a white codel, watched. A codel with a dp decides where it goes on, so a slide that meets a station
// again never lands, and one that never lands meets the kept station again: that is what ends the loop.
fn walk(grid: CodelGrid, row: usize, col: usize, from: PointerState) -> Walked
    requires { Inside (picture_in grid) row col × Valid from }
    ensures { Walks (picture_in grid.entry) row col from result }
{
    let mut at_row = row;
    let mut at_col = col;
    let mut state = from;
    let mut watch = begun(row, col, from.dp);
    // as the Rust's `trace_white`: a labelled loop, left from inside
    'slide: loop {
        let dp = state.dp;
        if meets(watch, at_row, at_col, dp) {
            break 'slide Walked {
                end: None,
                looks: watch.looks,
            };
        }
        watch = noted(watch, at_row, at_col, dp);
        match crate::slide::look(grid, at_row, at_col, dp) {
            Sight::Shut => {
                state = state.turned();
            }
            Sight::White { row: r, col: c } => {
                at_row = r;
                at_col = c;
            }
            Sight::Coloured { row: r, col: c } => {
                let end = Landed {
                    row: r,
                    col: c,
                    state,
                };
                break 'slide Walked {
                    end: Some(end),
                    looks: watch.looks,
                };
            }
        }
    }
}

// The slide from a white codel, in edition 2.
pub fn page_slide(grid: CodelGrid, row: usize, col: usize, from: PointerState) -> Option<Landed>
    requires { Inside (picture_in grid) row col × Valid from }
    ensures { Ends (picture_in grid.entry) comes_back row col from result }
{
    let walked = walk(grid, row, col, from);
    walked.end
}
