// The access that a slave owes, by the Rust function that makes it. `Read` and `Write` are the halves of a `modify`.

// clear_stopf: before listening, and at the end of a response.
#[derive(Clone, Copy)]
pub enum StopfFor {
    Listen,
    End,
}

#[derive(Clone, Copy)]
pub enum StopfStage {
    Status,
    Read,
    Write,
}

// clear_slave_stale_flags, once STOPF is cleared.
#[derive(Clone, Copy)]
pub enum StaleStage {
    Status,
    Clear,
}

// blocking_listen: ITBUFEN off, ACK on.
#[derive(Clone, Copy)]
pub enum ArmStage {
    BufferRead,
    BufferWrite,
    AckRead,
    AckWrite,
}

// The slave is addressed: STAR2, and for decode_slave_address OADDR2 or OADDR1.
#[derive(Clone, Copy)]
pub enum MatchStage {
    Status,
    Second,
    Own,
}

// The halves of a `modify`. (As in crate `master`, which is not below this one.)
#[derive(Clone, Copy)]
pub enum Half {
    Read,
    Write,
}

// slave_handle_errors, and behind it the clock.
#[derive(Clone, Copy)]
pub enum ErrorStage {
    Clear,
    Clock,
}

// abort_slave_transfer, with disable_slave_transfers first.
#[derive(Clone, Copy)]
pub enum AbortStage {
    DisableRead,
    DisableWrite,
    Busy,
    StopRead,
    StopWrite,
}

// `Poll` is the read of STAR1 that begins each turn of the three loops; `Receive` takes a byte, and `Send` gives one.
#[derive(Clone, Copy)]
pub enum Stage {
    ClearStopf(StopfFor, StopfStage),
    Stale(StaleStage),
    Arm(ArmStage),
    Poll,
    Match(MatchStage),
    Receive,
    Send,
    ClearAf(Half),
    Errors(ErrorStage),
    Abort(AbortStage),
    Ended,
}
