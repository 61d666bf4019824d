// What a call is made with.
use registers::Chip;

// The Rust's `FrameOptions`, in its order.
#[derive(Clone, Copy)]
pub enum FrameOptions {
    FirstAndLastFrame,
    FirstFrame,
    FirstAndNextFrame,
    NextFrame,
    LastFrame,
    LastFrameNoStop,
}

// What `send_start`, `send_stop` and `send_nack` answer.
#[derive(Clone, Copy)]
pub struct Frame {
    pub send_start: bool,
    pub send_stop: bool,
    pub send_nack: bool,
}

// The entry, with a frame's option.
#[derive(Clone, Copy)]
pub enum Kind {
    Transaction,
    WriteRead,
    Write(FrameOptions),
    Read(FrameOptions),
}

#[derive(Clone, Copy)]
pub struct Call {
    pub chip: Chip,
    pub address: u16,
    pub kind: Kind,
}

// What a step goes by of the call. Where there are several runs, STOP is asked at the last alone.
#[derive(Clone, Copy)]
pub struct Setting {
    pub chip: Chip,
    pub address: u16,
    pub frame: Frame,
}
