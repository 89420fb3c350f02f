// RS(528,514), the code that mends 7 symbols, behind the interface of codes.
#![tactic(auto)]

pub mod codec;
mod correction;
mod division;
mod forming;
mod reading;
mod repair;
mod rows;
mod syndromes;
