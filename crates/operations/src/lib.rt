// The operations of a transaction, lent as three bytes each: direction (0 write, 1 read), length low byte, length high byte.
// Neighbours of one direction are a run.
#![tactic(auto)]

pub mod operation;
pub mod search;
pub mod shape;

pub use operation::{Direction, Operation};
pub use search::{Run, Sums};
