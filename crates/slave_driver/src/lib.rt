// `validate` of a slave's configuration, and `init_slave`, access by access.
#![tactic(auto)]

pub mod config;
pub mod init;
