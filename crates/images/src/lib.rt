// What the states of the calls are in a block.
#![tactic(auto)]

pub mod end_image;
pub mod init_image;
pub mod init_slave_image;
pub mod master_image;
pub mod numbers;
