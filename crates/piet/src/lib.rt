// The public face: the layers' entry points, and a picture from its pixels to its run's result.
#![tactic(auto)]

pub mod run_picture;

pub use base::refusal::Refusal;
pub use cfg::build;
pub use colour::classify::classify;
pub use colour::label::label;
pub use interpreter::{Ended, determine_runs_forever, run, run_history};
pub use visits::{Visited, run_visits};
