// Ways that several groups go: an error, a register changed, a byte to keep, the next byte, the end of a run.
#![tactic(auto, using(crate::proofs::Laws::stand_back, crate::proofs::Laws::image))]

ghost use Rattle.std.specs.Prelude.{◌≡◌};
ghost use Rattle.access.specs.declared.need.Need.TheVariants as need;
ghost use Rattle.operations.specs.declared.search.Run.{Run};
ghost use Rattle.master.specs.declared.call.Setting.{Setting};
ghost use Rattle.master.specs.declared.stage.Stage.TheVariants.{Ended};
ghost use Rattle.master.specs.declared.state.Progress.{Progress};
ghost use Rattle.master.specs.Machine.{to, fails, saves, finished, write_bytes_move, read_bytes};
ghost use Rattle.stage_numbers.specs.MasterStage.{stage_group, stage_what, stage_phase};
ghost use Rattle.master_step.specs.Held.{Stand, bytes, at_stage, at_phase, on, stand_in, call_in, progress_in, Puts, Moves, Goes};

use crate::here::Here;
use crate::put;
use access::Failure;
use asked::Asked;
use block::{Block, at};
use master::Stage;
use master::stage::{AbortStage, Fall, FallStage, Flag, Half, StopFor, WaitStage};
use registers::Register;
use stage_numbers::Numbered;

// An error: the abort begins. (The Rust's `OnDrop::new(Self::abort_transfer)`.)
pub fn fails(block: &mut [u8; 32], failure: Failure) -> Asked
    ensures { bytes (stand_in block.old) ≡ block.old → Moves (call_in block.old) (fails failure (progress_in block.old)) block.new result }
{
    put::failed(block, failure);
    put::to(block, Stage::Abort(AbortStage::FinishRead));
    Asked::read(Register::Ctlr2)
}

// A register is changed: the word read is saved, and in this phase of the stage the new one is written. (The slave's stores the same; this contract says
// what the bytes mean, and the stages are two types, so one function would be a trait for two callers. So with `fails` and `ends`.)
#[tactic(auto, using(crate::proofs::Laws::stand_back))]
pub fn modifies<P: Numbered>(
    block: &mut [u8; 32],
    phase: P,
    old: u16,
    register: Register,
    new: u16,
) -> Asked
    ensures puts { Puts block.old block.new (λ (s : Stand). at_phase (P.number_of phase) (on (saves old) s)) }
    ensures asks { result ≡ need.Write register new }
{
    put::saves(block, old);
    put::phase(block, phase);
    Asked::write(register, new)
}

// On to a stage where a byte is to be kept, at the place that the block has.
#[tactic(auto, using(crate::proofs::Laws::place_at))]
pub fn keeps(block: &mut [u8; 32], stage: Stage) -> Asked
    ensures puts { Puts block.old block.new (at_stage (stage_group stage) (stage_what stage) (stage_phase stage)) }
    ensures asks { bytes (stand_in block.old) ≡ block.old → result ≡ need.Keep (progress_in block.old).place }
{
    let place = block.word(at::PLACE);
    put::to(block, stage);
    Asked::keep(place as u32)
}

// The call is done.
pub fn ends(block: &mut [u8; 32], here: Here, left: u16) -> Asked
    ensures { Goes here left block.old block.new result (λ (_ : Setting) (_ : Run) (d : Progress). to Ended d) }
{
    put::to(block, Stage::Ended);
    Asked::done()
}

// The bytes of the run are done.
pub fn finished(block: &mut [u8; 32], here: Here, left: u16) -> Asked
    ensures { Goes here left block.old block.new result finished }
{
    if here.stops {
        if here.reading {
            put::to(block, Stage::WaitStop(Fall::End, FallStage::Control));
            return Asked::read(Register::Ctlr1);
        }
        put::to(block, Stage::GenerateStop(StopFor::Write, Half::Read));
        return Asked::read(Register::Ctlr1);
    }
    if here.more {
        put::next_run(block);
        put::to(block, Stage::Begin);
        return Asked::read(Register::Ctlr1);
    }
    ends(block, here, left)
}

// A write goes on with its next byte.
pub fn write_bytes(block: &mut [u8; 32], here: Here, left: u16) -> Asked
    ensures { Goes here left block.old block.new result write_bytes_move }
{
    if left == 0 {
        return finished(block, here, left);
    }
    put::to(block, Stage::Wait(Flag::Txe, WaitStage::Status));
    Asked::read(Register::Star1)
}

// A read goes on with its next byte; the last three are read by BTF, except a single one.
pub fn read_bytes(block: &mut [u8; 32], here: Here, left: u16) -> Asked
    ensures { Goes here left block.old block.new result read_bytes }
{
    if left == 0 {
        return finished(block, here, left);
    }
    if here.nack & (left == 2) {
        put::to(block, Stage::Wait(Flag::Two, WaitStage::Status));
        return Asked::read(Register::Star1);
    }
    if here.nack & (left == 3) {
        put::to(block, Stage::Wait(Flag::Three, WaitStage::Status));
        return Asked::read(Register::Star1);
    }
    put::to(block, Stage::Wait(Flag::Rxne, WaitStage::Status));
    Asked::read(Register::Star1)
}
