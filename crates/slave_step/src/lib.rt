// The step of a slave call on the numbers of its block: a function for each of the Rust's, over its own group of stages. Each finds
// whether the stage fits, moves, writes the bytes that change, and says what is asked for next.
#![tactic(auto)]

mod abort;
pub mod begin;
mod clear;
mod go;
mod held;
mod here;
pub mod keep;
mod listen;
mod poll;
mod ready;
mod receive;
mod send;
mod stage;
pub mod step;
