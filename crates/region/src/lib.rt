// The regions of a picture: each codel of the grid gets the number of its region, and each region its
// row of the lent table.
#![tactic(auto)]

mod codels;
mod explore;
mod number;
mod rows;

pub use number::number_regions;
pub use rows::region_rows;
