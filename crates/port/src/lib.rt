// The port: words to lines and back over any code, with totals that are true after every run of calls.
#![tactic(auto)]

pub mod opening;
pub mod reading;
pub mod refusal;
pub mod state;
pub mod totals;
pub mod writing;
