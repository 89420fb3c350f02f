// Blocks of 257 bits, each the coding of a group of four words.
#![tactic(auto)]

pub mod block;
pub mod reading;
pub mod refusal;
pub mod writing;
