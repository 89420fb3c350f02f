// Recordings of training signals: finding the next marker, and counting good and bad signals.
#![tactic(auto)]

pub mod counts;
pub mod finding;
pub mod surveying;
