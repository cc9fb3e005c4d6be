// What every layer shares: bounds, digits, writing text and numbers into a lent slice, and filling one.
#![tactic(auto)]

pub mod digit;
pub mod edition;
pub mod fill;
pub mod limits;
pub mod put;
pub mod refusal;
