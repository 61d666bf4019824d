// Every call on its block, as an instance of the trait: lengths come in, and what is needed next goes out, a byte to send or to keep by its
// place. No payload comes here.
#![tactic(auto)]

pub mod init;
pub mod init_slave;
pub mod response;
pub mod transfer;
