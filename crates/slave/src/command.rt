// What `blocking_listen` returns.
use crate::config::SlaveAddress;

// The Rust's `SlaveCommandKind`, in its order.
#[derive(Clone, Copy)]
pub enum SlaveCommandKind {
    GeneralCall,
    Read,
    Write,
}

// The Rust's `SlaveCommand`.
#[derive(Clone, Copy)]
pub struct SlaveCommand {
    pub kind: SlaveCommandKind,
    pub address: SlaveAddress,
}
