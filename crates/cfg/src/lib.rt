// The table of a picture: its regions, their rows and their exits (`build`, both `cfg.rs`). The four lent slices stay apart, as
// C lends them: a struct that holds a `&mut` has each function promise that it holds the same one.
#![tactic(auto)]

mod building;
mod filling;
mod nodes;
mod search;

pub use building::{build, codel_count, too_short};
