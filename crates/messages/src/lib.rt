// Messages of 514 symbols, each the coding of eighty words.
#![tactic(auto)]

// A message codes eighty words.
pub const WORDS: usize = 80;

pub mod bits;
pub mod reading;
pub mod refusal;
pub mod writing;
