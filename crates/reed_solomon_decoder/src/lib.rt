// Which errors have the syndromes of a line of RS(528,514): at most 7, or none do.
#![tactic(auto)]

pub mod answer;
mod elimination;
pub mod errors;
mod evaluation;
pub mod line;
mod search;
