// What a step is given beside the block and what it knows of its run: how many of the run's bytes are left, the numbers of the stage
// within its group, and the answer. `Here` stands beside it: within it, it is copied, at 4 instructions a step.
#[derive(Clone, Copy)]
pub struct Input {
    pub left: u16,
    // The block's bytes: each group looks up its own.
    pub what: u8,
    pub phase: u8,
    pub answer: u16,
}
