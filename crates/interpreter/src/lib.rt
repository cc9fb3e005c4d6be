// The run over a lent table of regions and exits (rule 8), and `determine_runs_forever` (rule 7.5).
#![tactic(auto)]

mod endless;
mod good_table;
mod running;
mod stepping;
mod validity;

pub use endless::determine_runs_forever;
pub use good_table::GoodTable;
use machine::{Core, Stop};
pub use running::{begin, resume, run, run_history, run_observed};
pub use stepping::{Moved, step};
pub use validity::valid;

// Where a run stands, beside the lent slices.
#[derive(Clone, Copy)]
pub struct State {
    pub region: u32,
    pub steps: u64,
    pub core: Core,
}

// What a run comes to.
#[derive(Clone, Copy)]
pub struct Ended {
    pub stop: Stop,
    pub at: State,
}
