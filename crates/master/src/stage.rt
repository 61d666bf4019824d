// The access that a master owes, by the Rust function that makes it. `Read` and `Write` are the halves of a `modify`.

// wait_stop_finished: STOP has to fall before a START, and at the end of the frame.
#[derive(Clone, Copy)]
pub enum Fall {
    Start,
    End,
}

#[derive(Clone, Copy)]
pub enum FallStage {
    Control,
    Clock,
}

// launch_start, once STOP has fallen.
#[derive(Clone, Copy)]
pub enum LaunchStage {
    Control,
    Status,
    Read,
    Write,
}

// What is waited for: SB, ADDR, TXE, BTF behind a sent byte, BTF with three or two bytes left to read, RXNE.
#[derive(Clone, Copy)]
pub enum Flag {
    Sb,
    Addr,
    Txe,
    Sent,
    Three,
    Two,
    Rxne,
}

// A wait: the error check reads STAR1 and clears flags; then the clock.
#[derive(Clone, Copy)]
pub enum WaitStage {
    Status,
    Clear,
    Clock,
}

// From SB to the address: whether this master made the START, and the address word; STAR2 behind ADDR.
#[derive(Clone, Copy)]
pub enum AddressStage {
    Control,
    Master,
    Word,
    Cleared,
}

// recv_byte, once the error check has passed.
#[derive(Clone, Copy)]
pub enum RecvStage {
    Status,
    Data,
}

// blocking_read_iter: POS, ACK off for one or two bytes, START for one byte, ACK off before the third last byte, that byte,
// START before the last two, these two, POS off.
#[derive(Clone, Copy)]
pub enum ReadStage {
    PosWrite,
    AckRead,
    AckWrite,
    StartRead,
    StartWrite,
    NackRead,
    NackWrite,
    Third,
    AgainRead,
    AgainWrite,
    SecondLast,
    Last,
    PosOffRead,
    PosOffWrite,
}

// generate_stop: at the end of a write, for one byte to read, before the last two.
#[derive(Clone, Copy)]
pub enum StopFor {
    Write,
    One,
    Two,
}

// The halves of a `modify`. (Crate `slave` has them too: neither crate is below the other, and one more for two words is no plainer.)
#[derive(Clone, Copy)]
pub enum Half {
    Read,
    Write,
}

// abort_transfer, with finish_transfer first and generate_stop last.
#[derive(Clone, Copy)]
pub enum AbortStage {
    FinishRead,
    FinishWrite,
    Control,
    Frequency,
    Divider,
    Rise,
    Reset,
    Release,
    PutFrequency,
    PutDivider,
    PutRise,
    Enable,
    Master,
    StopRead,
    StopWrite,
}

// `Begin` is the first access of a run: CTLR1 is read, for POS or for STOP.
#[derive(Clone, Copy)]
pub enum Stage {
    Begin,
    WaitStop(Fall, FallStage),
    LaunchStart(LaunchStage),
    Wait(Flag, WaitStage),
    Address(AddressStage),
    SendByte,
    RecvByte(RecvStage),
    ReadIter(ReadStage),
    GenerateStop(StopFor, Half),
    Abort(AbortStage),
    Ended,
}
