// Up to a START, and at the end of a frame: `wait_stop_finished` and `launch_start`.
#![tactic(auto, using(crate::proofs::Laws::stand_back, crate::proofs::Laws::image))]

ghost use Rattle.std.specs.Prelude.{◌≡◌};
ghost use Rattle.stage_numbers.specs.MasterStage.{fall_number};
ghost use Rattle.master.specs.declared.call.Setting.{Setting};
ghost use Rattle.master.specs.declared.state.Progress.{Progress};
ghost use Rattle.operations.specs.declared.search.Run.{Run};
ghost use Rattle.master.specs.Machine.{fallen, wait_stop_finished, launch_start};
ghost use Rattle.master_step.specs.Going.{fits_fall_in};
ghost use Rattle.master_step.specs.Held.{Goes, Within, Group};

use crate::here::Here;
use crate::input::Input;
use crate::{go, put};
use access::{Error, next};
use asked::Asked;
use master::Stage;
use master::stage::{Fall, FallStage, Flag, LaunchStage, ReadStage, WaitStage};
use registers::{Register, bits, word};
use stage_numbers::Numbered;

#[inline(always)]
fn fits_fall(here: Here, left: u16, what: Fall) -> bool
    ensures { result ≡ fits_fall_in here left what }
{
    match what {
        Fall::Start => here.starting(left),
        Fall::End => here.closing(left),
    }
}

// STOP has fallen.
#[inline(always)]
pub fn fallen(block: &mut [u8; 32], here: Here, left: u16, what: Fall) -> Asked
    ensures { Goes here left block.old block.new result (λ (_ : Setting) (_ : Run). fallen what) }
{
    match what {
        Fall::Start => {
            put::to(block, Stage::LaunchStart(LaunchStage::Control));
            Asked::read(Register::Ctlr1)
        }
        Fall::End => {
            if here.reading {
                put::to(block, Stage::ReadIter(ReadStage::PosOffRead));
                return Asked::read(Register::Ctlr1);
            }
            go::ends(block, here, left)
        }
    }
}

// while ctlr1.read().stop() { timeout.check()? }
fn fall_phase(block: &mut [u8; 32], here: Here, what: Fall, phase: FallStage, input: Input) -> Asked
    ensures { Within 1 (fall_number what) here input.left block.old block.new result (λ (_ : Setting) (_ : Run) (d : Progress). wait_stop_finished phase what d input.answer) }
{
    match phase {
        FallStage::Control => {
            if word::bit(input.answer, bits::STOP) {
                put::phase(block, FallStage::Clock);
                return Asked::clock();
            }
            fallen(block, here, input.left, what)
        }
        FallStage::Clock => {
            if next::late(input.answer) {
                return go::fails(block, Error::Timeout.into());
            }
            put::phase(block, FallStage::Control);
            Asked::read(Register::Ctlr1)
        }
    }
}

pub fn wait_stop_finished(block: &mut [u8; 32], here: Here, input: Input) -> Asked
    ensures { Group 1 here input block.old block.new result }
{
    let Some(what) = Fall::of(input.what) else {
        return Asked::refused();
    };
    let Some(phase) = FallStage::of(input.phase) else {
        return Asked::refused();
    };
    if !fits_fall(here, input.left, what) {
        return Asked::refused();
    }
    fall_phase(block, here, what, phase, input)
}

// if ctlr1.read().start() || star1.read().sb() { return }, and else ctlr1.modify(start, and ack for a read)
fn launch_phase(block: &mut [u8; 32], here: Here, phase: LaunchStage, input: Input) -> Asked
    ensures { Within 2 0 here input.left block.old block.new result (λ (_ : Setting) (_ : Run) (d : Progress). launch_start phase d input.answer) }
{
    match phase {
        LaunchStage::Control => {
            if word::bit(input.answer, bits::START) {
                put::to(block, Stage::Wait(Flag::Sb, WaitStage::Status));
                return Asked::read(Register::Star1);
            }
            put::phase(block, LaunchStage::Status);
            Asked::read(Register::Star1)
        }
        LaunchStage::Status => {
            if word::bit(input.answer, bits::SB) {
                put::to(block, Stage::Wait(Flag::Sb, WaitStage::Status));
                return Asked::read(Register::Star1);
            }
            put::phase(block, LaunchStage::Read);
            Asked::read(Register::Ctlr1)
        }
        LaunchStage::Read => {
            let started = word::set_bit(input.answer, bits::START);
            if here.reading {
                let acked = word::set_bit(started, bits::ACK);
                return go::modifies(
                    block,
                    LaunchStage::Write,
                    input.answer,
                    Register::Ctlr1,
                    acked,
                );
            }
            go::modifies(
                block,
                LaunchStage::Write,
                input.answer,
                Register::Ctlr1,
                started,
            )
        }
        LaunchStage::Write => {
            put::to(block, Stage::Wait(Flag::Sb, WaitStage::Status));
            Asked::read(Register::Star1)
        }
    }
}

pub fn launch_start(block: &mut [u8; 32], here: Here, input: Input) -> Asked
    ensures { Group 2 here input block.old block.new result }
{
    let Some(phase) = LaunchStage::of(input.phase) else {
        return Asked::refused();
    };
    if !((input.what == 0) & here.starting(input.left)) {
        return Asked::refused();
    }
    launch_phase(block, here, phase, input)
}
