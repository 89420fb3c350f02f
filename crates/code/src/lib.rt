// What a code is: the interface that every code stands behind, the bare code, and two layers over any code.
#![tactic(auto)]

pub mod bare;
pub mod correction_off;
pub mod distance;
pub mod interface;
mod key_table;
pub mod receive;
pub mod refusal;
pub mod scrambled;
pub mod sequence;
