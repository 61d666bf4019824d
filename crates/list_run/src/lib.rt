// A step's pass over the list of a transaction: is it acceptable, and where is the run of a number.
#![tactic(auto)]

pub mod find;
pub mod runs;
