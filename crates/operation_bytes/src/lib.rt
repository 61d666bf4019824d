// A slice of operation structs as the bytes that C lends.
#![tactic(auto)]

pub mod byte_list;
pub mod slice;

pub use byte_list::ByteList;
