// Training signals on the line: writing one, and reading one at a place of a recording.
#![tactic(auto)]

pub mod line;
mod pieces;
pub mod reading;
mod sender;
pub mod tape;
pub mod writing;
