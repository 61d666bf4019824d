// What C programs call: nine calls, each with a begin and a step; and two questions: where interrupts are to be held off, and which bus
// speed lies within a window. docs/STATE.md describes the block.
#![tactic(auto)]

pub mod critical;
pub mod init;
pub mod init_slave;
mod numbers;
pub mod response;
pub mod transfer;
pub mod window;
