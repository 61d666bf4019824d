// The master's calls and the states of its machine. The meaning of both is in specs/, and the code is in crates `master_step` and `master_call`.
#![tactic(auto)]

pub mod call;
pub mod stage;
pub mod state;

pub use call::{Call, Frame, FrameOptions, Kind, Setting};
pub use stage::Stage;
pub use state::{Move, Progress, State};
