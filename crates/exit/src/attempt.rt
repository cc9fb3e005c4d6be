// One attempt to leave a region by a codel (`possible_exits`, `trace_white`).
ghost use Rattle.flow.specs.Pointer.{Valid};
ghost use Rattle.picture.specs.Codels.{picture_in};
ghost use Rattle.picture.specs.Picture.{Inside};
ghost use Rattle.exit.specs.Attempt.{Attempt};
ghost use Rattle.exit.specs.Slide.{Ends};
ghost use Rattle.exit.specs.Trail.{lost_by};

use crate::slide::{Landed, Sight};
use base::edition::Edition;
use flow::PointerState;
use picture::grid::CodelGrid;

// What is ahead is shut; it is the coloured codel at (row, col); it is the white codel at (row, col), and the slide from
// there is lost, or lands. The white codel is kept in both, since its region is found even where the slide is lost.
#[derive(Clone, Copy)]
pub enum Way {
    Closed,
    Step {
        row: usize,
        col: usize,
    },
    Astray {
        row: usize,
        col: usize,
    },
    Glide {
        row: usize,
        col: usize,
        to_row: usize,
        to_col: usize,
        state: PointerState,
    },
}

// The slide from a white codel, lost by the rule of the edition.
fn slide(
    grid: CodelGrid,
    edition: Edition,
    row: usize,
    col: usize,
    from: PointerState,
) -> Option<Landed>
    requires { Inside (picture_in grid) row col × Valid from }
    ensures { Ends (picture_in grid.entry) (lost_by edition) row col from result }
{
    match edition {
        Edition::Rust => crate::slide::rust_slide(grid, row, col, from),
        Edition::Page => crate::page_slide::page_slide(grid, row, col, from),
    }
}

// From the codel to leave by one codel along dp (rule 4.3), and from a white one on by its slide (rule 5.1).
pub fn attempt_from(
    grid: CodelGrid,
    edition: Edition,
    row: usize,
    col: usize,
    from: PointerState,
) -> Way
    requires { Inside (picture_in grid) row col × Valid from }
    ensures { Attempt edition (picture_in grid.entry) row col from result }
{
    let dp = from.dp;
    match crate::slide::look(grid, row, col, dp) {
        Sight::Shut => Way::Closed,
        Sight::Coloured { row: r, col: c } => Way::Step { row: r, col: c },
        Sight::White { row: r, col: c } => match slide(grid, edition, r, c, from) {
            Some(end) => Way::Glide {
                row: r,
                col: c,
                to_row: end.row,
                to_col: end.col,
                state: end.state,
            },
            None => Way::Astray { row: r, col: c },
        },
    }
}
