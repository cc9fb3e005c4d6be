// The lent table: where a region's row and exits stand, and the exit number. Cells are found and exit numbers made and
// read here and nowhere else.
#![tactic(auto)]

ghost use Rattle.std.specs.Prelude.{◌≡◌, ◌<◌, ◌≤◌};
ghost use Rattle.table.specs.Layout.{field_number, row_cell, exit_cell, rows_room, exits_room};
ghost use Rattle.table.specs.ExitNumber.{exit_number, target_of, state_of, instruction_of};

// The fields of a row, in their order.
#[derive(Clone, Copy)]
pub enum Field {
    Colour,
    Size,
    FirstRow,
    FirstColumn,
    Mark,
}

// The largest exit number, and one above it: in edition 2 the exit of a slide that is lost (rule 16.5).
pub const LARGEST_EXIT: u32 = 9437184;

pub const LOST_SLIDE: u32 = 9437185;

// The cell of a field of region r's row.
pub fn row_cell(r: usize, field: Field) -> usize
    requires { r ≤ 65536 }
    ensures { result ≡ row_cell r (field_number field) }
{
    r * 5 + field as usize
}

// The cell of region r's exit in a state.
pub fn exit_cell(r: usize, state: usize) -> usize
    requires { (r ≤ 65536) × (state < 8) }
    ensures { result ≡ exit_cell r state }
{
    8 * r + state
}

// How many cells the rows of n regions take.
pub fn rows_room(n: usize) -> usize
    requires { n ≤ 65536 }
    ensures { result ≡ rows_room n }
{
    n * 5
}

// How many cells the exits of n regions take.
pub fn exits_room(n: usize) -> usize
    requires { n ≤ 65536 }
    ensures { result ≡ exits_room n }
{
    8 * n
}

// The number of an open exit.
pub fn exit_number(target: u32, state: u8, instruction: u8) -> u32
    requires { (target < 65536) × (state < 8) }
    ensures { result ≡ exit_number target state instruction }
{
    1 + target + 65536 * (state as u32) + 524288 * (instruction as u32)
}

// Where an open exit leads.
pub fn target_of(exit: u32) -> u32
    requires { 0 < exit }
    ensures { result ≡ target_of exit }
{
    (exit - 1) % 65536
}

// The pointer state that an open exit leads to.
pub fn state_of(exit: u32) -> u8
    requires { 0 < exit }
    ensures { result ≡ state_of exit }
{
    ((exit - 1) / 65536 % 8) as u8
}

// The instruction of an open exit.
pub fn instruction_of(exit: u32) -> u32
    requires { 0 < exit }
    ensures { result ≡ instruction_of exit }
{
    (exit - 1) / 524288
}

// A cell of a map or a table as an index: what is read from a slice is converted by a function.
pub fn wide(x: u32) -> usize
    ensures { result ≡ x }
{
    x as usize
}
