// The pointer pair and its turns, the order of the eight attempts, the codel ahead (`flow.rs`).
#![tactic(auto)]

ghost use Rattle.std.specs.Prelude.{◌≡◌, ◌<◌};
ghost use Rattle.flow.specs.Pointer.{Valid, rotated, switched, turned_once, offset_of, attempt_of, state_number, of_number};
ghost use Rattle.flow.specs.Neighbour.{ahead_of};

// The pointer pair, by value: dp right, down, left, up 0 to 3; cc left, right 0, 1. Numbers, as C has them, to turn by sums. That
// they are in these bounds is asked where it matters: `Core::at_pointers` takes any pair.
#[derive(Clone, Copy)]
pub struct PointerState {
    pub dp: u8,
    pub cc: u8,
}

impl PointerState {
    // The state with the number s.
    pub fn of_number(s: u8) -> Self
        requires { s < 8 }
        ensures { result ≡ of_number s }
    {
        PointerState {
            dp: s / 2,
            cc: s % 2,
        }
    }

    // 2 x dp + cc.
    pub fn number(self) -> u8
        requires { Valid self }
        ensures { result ≡ state_number self }
    {
        2 * self.dp + self.cc
    }

    // dp turns clockwise n times, anticlockwise where n is negative.
    pub fn rotate(self, n: i64) -> Self
        requires { Valid self }
        ensures { result ≡ rotated self n }
    {
        PointerState {
            dp: (self.dp + word::modulo_4(n)) % 4,
            cc: self.cc,
        }
    }

    // cc flips n times.
    pub fn switch(self, n: i64) -> Self
        requires { Valid self }
        ensures { result ≡ switched self n }
    {
        PointerState {
            dp: self.dp,
            cc: (self.cc + word::modulo_2(n)) % 2,
        }
    }

    // dp clockwise, cc flipped: what a slide does where it is shut.
    pub fn turned(self) -> Self
        requires { Valid self }
        ensures { result ≡ turned_once self }
    {
        PointerState {
            dp: (self.dp + 1) % 4,
            cc: 1 - self.cc,
        }
    }

    // Which of the eight attempts from self tries target: the Rust's `find_offset`. The code goes the other way, by
    // `attempt`; that the two are inverse is what makes its order the Rust's.
    pub fn offset(self, target: PointerState) -> u8
        requires { Valid self × Valid target }
        ensures { result ≡ offset_of self target }
    {
        let dd = (target.dp + 4 - self.dp) % 4;
        let d = (self.cc + target.cc) % 2;
        2 * dd + (d + dd) % 2
    }

    // The state that attempt k of the eight tries from self: the inverse of `offset`.
    pub fn attempt(self, k: u8) -> Self
        requires { Valid self × (k < 8) }
        ensures { result ≡ attempt_of self k }
    {
        let dd = k / 2;
        PointerState {
            dp: (self.dp + dd) % 4,
            cc: (self.cc + k + dd) % 2,
        }
    }
}

// The row and column of the codel one step along dp, or none at the edge. `MOVE_IN`: the wrapping moves of the Rust become tests of the grid's bounds.
pub fn ahead(rows: usize, cols: usize, row: usize, col: usize, dp: u8) -> Option<(usize, usize)>
    requires { (row < rows) × (col < cols) }
    ensures { result ≡ ahead_of rows cols row col dp }
{
    match dp {
        0 => if col + 1 < cols {
            Some((row, col + 1))
        } else {
            None
        },
        1 => if row + 1 < rows {
            Some((row + 1, col))
        } else {
            None
        },
        2 => if 0 < col { Some((row, col - 1)) } else { None },
        _ => if 0 < row { Some((row - 1, col)) } else { None },
    }
}
