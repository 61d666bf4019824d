// The bench program's work, from the input's bytes to the bytes that are printed.
#![tactic(auto)]

pub mod answer;
pub mod play;
pub mod turn;
