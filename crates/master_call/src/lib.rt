// Begin and step of a transfer on its block, by what is lent: its list, and how many bytes to write and to read. No payload comes
// here: a byte to send or to keep is asked for by its place.
#![tactic(auto)]

pub mod begin;
pub mod frame;
pub mod held;
pub mod here;
pub mod transaction;
pub mod write_read;
