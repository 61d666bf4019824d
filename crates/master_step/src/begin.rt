// Before a run's first access: CTLR1 is read, for POS in a read, and in a write for STOP.
ghost use Rattle.std.specs.Prelude.{◌≡◌};
ghost use Rattle.master.specs.Machine.{begins, begun};
ghost use Rattle.master_step.specs.Going.{fits_begin_in};
ghost use Rattle.master_step.specs.Held.{stand_in, call_in, progress_in, run_in, Moves, Unbegun, Beginning};

use crate::here::Here;
use crate::input::Input;
use crate::{put, start};
use asked::Asked;
use block::{Block, at};
use master::Stage;
use master::stage::{Fall, FallStage, ReadStage};
use registers::{Register, bits, word};

// The block has nothing of the run yet, and the run has a first access: a read changes POS, and a START waits for STOP to fall.
#[tactic(auto, unfolding(crate::specs::Going::fits_begin_in))]
fn fits_begin(block: &[u8; 32], here: Here, left: u16, what: u8, phase: u8) -> bool
    ensures { result ≡ fits_begin_in here left what phase block.now }
{
    (what == 0)
        & ((phase == 0)
            & ((block[at::MARKS] == 0)
                & ((left == 0) & ((block.word(at::PLACE) == 0) & (here.reading | here.start)))))
}

// The run begins, by the first answer: ctlr1.modify(set_pos(..)) in a read, and in a write the first word of wait_stop_finished.
#[tactic(auto, using(crate::proofs::Laws::stand_back, crate::proofs::Laws::image, crate::proofs::Laws::direction_told))]
fn begin_run(block: &mut [u8; 32], here: Here, input: Input) -> Asked
    ensures { Unbegun here input.left (stand_in block.old) block.old → Moves (call_in block.old) (begins (begun (run_in here) (progress_in block.old)) input.answer) block.new result }
{
    put::begun(block, here);
    if here.reading {
        let two = (here.length == 2) & here.nack;
        put::saves(block, input.answer);
        put::to(block, Stage::ReadIter(ReadStage::PosWrite));
        return Asked::write(Register::Ctlr1, word::put_bit(input.answer, bits::POS, two));
    }
    if word::bit(input.answer, bits::STOP) {
        put::to(block, Stage::WaitStop(Fall::Start, FallStage::Clock));
        return Asked::clock();
    }
    start::fallen(block, here, here.length, Fall::Start)
}

pub fn begins(block: &mut [u8; 32], here: Here, input: Input) -> Asked
    ensures { Beginning here input block.old block.new result }
{
    if !fits_begin(block, here, input.left, input.what, input.phase) {
        return Asked::refused();
    }
    begin_run(block, here, input)
}
