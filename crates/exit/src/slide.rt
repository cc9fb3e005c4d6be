// What a codel has ahead, and the slide over white in edition 1 (`trace_white`).
ghost use Rattle.std.specs.Prelude.{◌≡◌};
ghost use Rattle.flow.specs.Pointer.{Valid};
ghost use Rattle.picture.specs.Codels.{picture_in};
ghost use Rattle.picture.specs.Picture.{Inside};
ghost use Rattle.exit.specs.Slide.{look_of, Ends};
ghost use Rattle.exit.specs.Trail.{eighth_turn};

use colour::palette::{BLACK, WHITE};
use flow::PointerState;
use picture::grid::CodelGrid;

// A slide is lost at its eighth turn, counted over all of it (rule 5.4).
const LAST_TURN: u8 = 8;

// What stands one codel along dp; black and what is outside are shut (rule 4.3).
#[derive(Clone, Copy)]
pub enum Sight {
    Shut,
    White { row: usize, col: usize },
    Coloured { row: usize, col: usize },
}

// Where a slide lands, if it is not lost.
#[derive(Clone, Copy)]
pub struct Landed {
    pub row: usize,
    pub col: usize,
    pub state: PointerState,
}

// Looks one codel along dp. The closures of `MOVE_IN` are a choice on dp, in `ahead`, whose test of the bounds is the
// only one: a codel of the grid always has a colour.
pub fn look(grid: CodelGrid, row: usize, col: usize, dp: u8) -> Sight
    requires { Inside (picture_in grid) row col }
    ensures { result ≡ look_of (picture_in grid.entry) row col dp }
{
    let s = grid.shape;
    let Some((r, c)) = flow::ahead(s.rows, s.cols, row, col, dp) else {
        return Sight::Shut;
    };
    let colour = grid.colour_at(r, c);
    if colour == BLACK {
        return Sight::Shut;
    }
    if colour == WHITE {
        return Sight::White { row: r, col: c };
    }
    Sight::Coloured { row: r, col: c }
}

// The slide from a white codel, in edition 1: straight moves and turns, left from inside with the landing codel. A move leaves the
// count of turns as it is, since they are counted over the whole slide; that is also what ends it, as the Rust's
// `retries`.
pub fn rust_slide(grid: CodelGrid, row: usize, col: usize, from: PointerState) -> Option<Landed>
    requires { Inside (picture_in grid) row col × Valid from }
    ensures { Ends (picture_in grid.entry) eighth_turn row col from result }
{
    let mut at_row = row;
    let mut at_col = col;
    let mut state = from;
    let mut turns: u8 = 0;
    // as the Rust's: a labelled loop, left from inside
    'slide: loop {
        if turns == LAST_TURN {
            break 'slide None;
        }
        let dp = state.dp;
        match look(grid, at_row, at_col, dp) {
            Sight::Shut => {
                state = state.turned();
                turns += 1;
            }
            Sight::White { row: r, col: c } => {
                at_row = r;
                at_col = c;
            }
            Sight::Coloured { row: r, col: c } => {
                break 'slide Some(Landed {
                    row: r,
                    col: c,
                    state,
                });
            }
        }
    }
}
