// The step of a master call on the numbers of its block: a function for each of the Rust's, over its own group of stages. Each finds
// whether the stage fits, moves, writes the bytes that change, and says what is asked for next. (So the functions of the groups begin alike: each looks up
// its own kinds and asks its own test.)
#![tactic(auto)]

mod abort;
mod address;
mod begin;
mod go;
pub mod here;
pub mod input;
pub mod keep;
mod put;
mod read;
mod ready;
mod send;
mod start;
pub mod step;
mod stop;
mod wait;

pub use go::write_bytes;
pub use here::Here;
pub use input::Input;
pub use put::begun;
