// The state of a slave call: no payload.
use crate::stage::Stage;
use access::Ending;
use registers::Chip;

// The entry.
#[derive(Clone, Copy)]
pub enum Kind {
    Listen,
    RespondToWrite,
    RespondToRead,
}

// What a step goes by: the call, and how many bytes the buffer takes or the data has.
#[derive(Clone, Copy)]
pub struct Setting {
    pub chip: Chip,
    pub kind: Kind,
    pub size: u16,
}

#[derive(Clone, Copy)]
pub struct Progress {
    // The bytes stored; or those sent, and one more than the data has where it is more.
    pub count: u32,
    // The word last saved.
    pub word: u16,
    // How the call is to end.
    pub ending: Ending,
}

// Where an answer leads. (As in crate `master`, which is not below this one.)
#[derive(Clone, Copy)]
pub struct Move {
    pub stage: Stage,
    pub progress: Progress,
}

#[derive(Clone, Copy)]
pub struct State {
    pub chip: Chip,
    pub kind: Kind,
    pub stage: Stage,
    pub progress: Progress,
}
