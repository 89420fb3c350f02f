// Words of 66 bits, each a header and a body.
#![tactic(auto)]

pub mod control;
pub mod refusal;
pub mod word;
