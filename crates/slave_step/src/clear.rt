// Flags are cleared: `clear_stopf`, `clear_slave_stale_flags`, and AF behind a reply.
#![tactic(auto, using(crate::proofs::Laws::end_at), unfolding(block::specs::Bytes32::bytes_of, images::specs::SlaveImage::slave_fields, crate::specs::Held::block_at, crate::specs::Held::fields_at))]

ghost use Rattle.std.specs.Prelude.{◌≡◌};
ghost use Rattle.slave.specs.Machine.{clear_stopf_move, clear_slave_stale_flags_move, clear_af_move};
ghost use Rattle.stage_numbers.specs.SlaveStage.{stopf_for_number, stopf_stage_number, stale_stage_number, half_number};
ghost use Rattle.slave_step.specs.Held.{Call, image, is_for, Stands, Group, Moves};

use crate::go;
use crate::here::Here;
use asked::Asked;
use block::{Block, at};
use registers::{Register, bits, flags, word};
use slave::Stage;
use slave::stage::{ArmStage, Half, StaleStage, StopfFor, StopfStage};
use stage_numbers::Numbered;

// regs.star1().read(); regs.ctlr1().modify(|_| {})
fn stopf_phase(block: &mut [u8; 32], what: StopfFor, phase: StopfStage, answer: u16) -> Asked
    ghost s: { Call }
    requires { image s 0 (stopf_for_number what) (stopf_stage_number phase) ≡ block.old }
    ensures { Moves s.setting (clear_stopf_move phase what s.progress answer) block.new result }
{
    match phase {
        StopfStage::Status => {
            block.phase(StopfStage::Read.number());
            Asked::read(Register::Ctlr1)
        }
        StopfStage::Read => go::modifies(block, StopfStage::Write, answer, Register::Ctlr1, answer),
        StopfStage::Write => match what {
            StopfFor::Listen => {
                go::to(block, Stage::Stale(StaleStage::Status));
                Asked::read(Register::Star1)
            }
            StopfFor::End => go::ends(block),
        },
    }
}

// Before listening, or at the end of a response.
fn is_for(here: Here, what: StopfFor) -> bool
    ensures { result ≡ is_for here.kind what }
{
    match what {
        StopfFor::Listen => here.listens(),
        StopfFor::End => !here.listens(),
    }
}

#[inline(always)]
pub fn clear_stopf(block: &mut [u8; 32], here: Here) -> Asked
    ghost s: { Call }
    requires { Stands s here 0 block.old }
    ensures { Group 0 s here block.old block.new result }
{
    let Some(what) = StopfFor::of(here.what) else {
        return Asked::refused();
    };
    let Some(phase) = StopfStage::of(here.phase) else {
        return Asked::refused();
    };
    if !is_for(here, what) {
        return Asked::refused();
    }
    stopf_phase(block, what, phase, here.answer)
}

// Error flags of an earlier transfer are cleared.
fn stale_phase(block: &mut [u8; 32], phase: StaleStage, answer: u16) -> Asked
    ghost s: { Call }
    requires { image s 1 0 (stale_stage_number phase) ≡ block.old }
    ensures { Moves s.setting (clear_slave_stale_flags_move phase s.progress answer) block.new result }
{
    match phase {
        StaleStage::Status => {
            let observed = flags::error_flags(answer);
            if observed != 0 {
                block.put_word(at::WORD, answer);
                block.phase(StaleStage::Clear.number());
                return Asked::write(Register::Star1, flags::clear_error(observed));
            }
            go::to(block, Stage::Arm(ArmStage::BufferRead));
            Asked::read(Register::Ctlr2)
        }
        StaleStage::Clear => {
            go::to(block, Stage::Arm(ArmStage::BufferRead));
            Asked::read(Register::Ctlr2)
        }
    }
}

#[inline(always)]
pub fn clear_slave_stale_flags(block: &mut [u8; 32], here: Here) -> Asked
    ghost s: { Call }
    requires { Stands s here 1 block.old }
    ensures { Group 1 s here block.old block.new result }
{
    let Some(phase) = StaleStage::of(here.phase) else {
        return Asked::refused();
    };
    if !((here.what == 0) & here.listens()) {
        return Asked::refused();
    }
    stale_phase(block, phase, here.answer)
}

// regs.star1().modify(|reg| reg.set_af(false))
fn af_phase(block: &mut [u8; 32], phase: Half, answer: u16) -> Asked
    ghost s: { Call }
    requires { image s 7 0 (half_number phase) ≡ block.old }
    ensures { Moves s.setting (clear_af_move phase s.progress answer) block.new result }
{
    match phase {
        Half::Read => go::modifies(
            block,
            Half::Write,
            answer,
            Register::Star1,
            word::clear_bit(answer, bits::AF),
        ),
        Half::Write => go::ends(block),
    }
}

#[inline(always)]
pub fn clear_af(block: &mut [u8; 32], here: Here) -> Asked
    ghost s: { Call }
    requires { Stands s here 7 block.old }
    ensures { Group 7 s here block.old block.new result }
{
    let Some(phase) = Half::of(here.phase) else {
        return Asked::refused();
    };
    if !((here.what == 0) & here.replies()) {
        return Asked::refused();
    }
    af_phase(block, phase, here.answer)
}
