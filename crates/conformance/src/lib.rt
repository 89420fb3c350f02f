// Examples and tables of cases for all layers, in a crate of their own so that the layers are not proved twice.
#![tactic(auto)]

#[cfg(test)]
mod blocks_and_words;
#[cfg(test)]
mod codes;
#[cfg(test)]
mod field_values;
#[cfg(test)]
mod lines;
#[cfg(test)]
mod ports;
#[cfg(test)]
mod reed_solomon_lines;
#[cfg(test)]
mod reed_solomon_words;
#[cfg(test)]
mod training_signals;
