// A transaction whose operations are lent as a slice of structs, and not as bytes.
#![tactic(auto)]

pub mod transaction;
