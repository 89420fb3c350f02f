// Eighty words carried through a port over any code with a known damage, and the answer to a text as it is printed.
#![tactic(auto)]

pub mod answer;
pub mod carrying;
pub mod running;
#[cfg(test)]
mod tests;
