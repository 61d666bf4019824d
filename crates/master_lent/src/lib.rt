// What is lent for a master call: the first cause of refusal, or the run of a number.
#![tactic(auto)]

pub mod lent;
