// Why a call is refused, and the number by which C has it (rule 12.2).
ghost use Rattle.std.specs.Prelude.{◌≡◌};
ghost use Rattle.base.specs.Refusal.{number_of_refusal, place_of};

// What is wrong with what a call is given, and where, if a place is named.
#[derive(Clone, Copy, Debug, PartialEq, Eq)]
pub enum Refusal {
    Size,
    Bytes,
    Setting,
    Room,
    Pixel { row: usize, column: usize },
    Codel,
    Grid,
    Colour { index: usize },
    White,
    Table,
    Job,
    Label,
    Header,
    Length,
    Edition,
    Limit,
}

impl Refusal {
    // Its number. No refusal has 0.
    pub fn number(self) -> u32
        ensures { result ≡ number_of_refusal self }
    {
        match self {
            Refusal::Size => 1,
            Refusal::Bytes => 2,
            Refusal::Setting => 3,
            Refusal::Room => 4,
            Refusal::Pixel { row: _, column: _ } => 5,
            Refusal::Codel => 6,
            Refusal::Grid => 7,
            Refusal::Colour { index: _ } => 8,
            Refusal::White => 9,
            Refusal::Table => 10,
            Refusal::Job => 11,
            Refusal::Label => 12,
            Refusal::Header => 13,
            Refusal::Length => 14,
            Refusal::Edition => 15,
            Refusal::Limit => 16,
        }
    }

    // The place that it names, as C has it in the two cells of an answer: a row and a column; 0 and an index; else zeros.
    pub fn place(self) -> (usize, usize)
        ensures { result ≡ place_of self }
    {
        match self {
            Refusal::Pixel { row, column } => (row, column),
            Refusal::Colour { index } => (0, index),
            _ => (0, 0),
        }
    }
}
