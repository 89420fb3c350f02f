// Training records of 16GFC and 32GFC ports: what a training signal says, with its numbers, and why a call refuses.
#![tactic(auto)]

pub mod fields;
pub mod numbers;
pub mod records;
pub mod refusals;
