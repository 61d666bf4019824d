// The state of a master call: no payload, and nothing of how a run is divided into operations.
use crate::call::Call;
use crate::stage::Stage;
use access::Ending;

#[derive(Clone, Copy)]
pub struct Progress {
    // The run's direction, number and bytes left, and the place of the next of them in the written or the read bytes.
    pub reading: bool,
    pub run: u16,
    pub left: u16,
    pub place: u16,
    // The word last saved; in a reset the divider and the rise time too.
    pub word: u16,
    pub divider: u16,
    pub rise: u16,
    // How the call is to end.
    pub ending: Ending,
}

// Where an answer leads. (Crate `slave` has one of its own stages, and is not below this one.)
#[derive(Clone, Copy)]
pub struct Move {
    pub stage: Stage,
    pub progress: Progress,
}

#[derive(Clone, Copy)]
pub struct State {
    pub call: Call,
    pub stage: Stage,
    pub progress: Progress,
}
