// The states of `init_slave`.
use crate::config::SlaveConfig;

// The access that is owed: each `modify` is a read and a write.
#[derive(Clone, Copy)]
pub enum InitStage {
    DisableRead,
    DisableWrite,
    BufferRead,
    BufferWrite,
    Own,
    Second,
    EnableRead,
    EnableWrite,
    Ended,
}

#[derive(Clone, Copy)]
pub struct InitState {
    pub config: SlaveConfig,
    pub stage: InitStage,
    // The word of the last read.
    pub saved: u16,
}
