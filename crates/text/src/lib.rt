// The input side of the machine: lines, UTF-8, white space and numbers, over bytes that the caller lends.
#![tactic(auto)]

pub mod input;
pub mod number;
pub mod utf8;
pub mod white;
