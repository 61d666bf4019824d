// The slave's calls and the states of its machines. The meaning of both is in specs/, and the code is in crates `slave_step` and `slave_driver`.
#![tactic(auto)]

pub mod command;
pub mod config;
pub mod init;
pub mod stage;
pub mod state;

pub use command::{SlaveCommand, SlaveCommandKind};
pub use config::{SlaveAddress, SlaveConfig};
pub use stage::Stage;
pub use state::{Kind, Move, Progress, Setting, State};
