// A run told in words, as text in a lent slice of bytes: the line of a move, and the lines of the run's end. Each writer takes
// the index to begin at and returns the one after.
#![tactic(auto)]

pub mod ending;
pub mod line;
pub mod outputs;
pub mod words;
