// Leaving a region (`possible_exits`, `trace_white`): the codel to leave by in each pointer state, one attempt from a
// codel, and the slide over white.
#![tactic(auto)]

pub mod attempt;
pub mod leave;
pub mod page_slide;
pub mod slide;
