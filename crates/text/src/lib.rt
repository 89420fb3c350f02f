// The text of a loop: the names of the columns and eighty rows, read to eighty words or refused at the first fault.
#![tactic(auto)]

pub mod digits;
mod parts;
pub mod reading;
pub mod refusal;
mod rows;
pub mod tokens;
