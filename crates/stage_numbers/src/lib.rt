// The stages of the master and slave calls by number.
#![tactic(auto)]

pub mod master_stage;
pub mod numbered;
pub mod slave_stage;

pub use numbered::Numbered;
