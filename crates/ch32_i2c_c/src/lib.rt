// The static library that C programs link: the functions of `ch32_i2c`, each exported under its name with its contract. (A crate of its own:
// programs depend on `ch32_i2c`, and only a static library exports.)
#![tactic(auto)]

pub mod critical;
pub mod init;
pub mod init_slave;
pub mod response;
pub mod transfer;
pub mod window;
