// while !check_and_clear_error_flags()?.FLAG() { timeout.check()? }
ghost use Rattle.std.specs.Prelude.{◌≡◌};
ghost use Rattle.stage_numbers.specs.MasterStage.{flag_number as flagByte};
ghost use Rattle.master.specs.declared.call.Setting.{Setting};
ghost use Rattle.master.specs.declared.state.Progress.{Progress};
ghost use Rattle.operations.specs.declared.search.Run.{Run};
ghost use Rattle.master.specs.Machine.{is_set, waited, tests, waits};
ghost use Rattle.master_step.specs.Going.{fits_wait_in};
ghost use Rattle.master_step.specs.Held.{Goes, Within, Group};

use crate::here::Here;
use crate::input::Input;
use crate::{go, put};
use access::{Error, next};
use asked::Asked;
use block::{Block, at};
use images::numbers;
use master::Stage;
use master::stage::{AddressStage, Flag, Half, ReadStage, RecvStage, StopFor, WaitStage};
use registers::{Register, bits, flags, word};
use stage_numbers::Numbered;

fn fits_wait(here: Here, left: u16, flag: Flag) -> bool
    ensures { result ≡ fits_wait_in here left flag }
{
    match flag {
        Flag::Sb | Flag::Addr => here.starting(left),
        Flag::Txe | Flag::Sent => here.sending(left),
        Flag::Three => here.last_ones(left, 3),
        Flag::Two => here.last_ones(left, 2),
        Flag::Rxne => here.receiving(left),
    }
}

// Whether the flag is set in the word that the error check read. RXNE is tested in another.
fn is_set(flag: Flag, status: u16) -> bool
    ensures { result ≡ is_set flag status }
{
    match flag {
        Flag::Sb => word::bit(status, bits::SB),
        Flag::Addr => word::bit(status, bits::ADDR),
        Flag::Txe => word::bit(status, bits::TXE),
        Flag::Sent | Flag::Three | Flag::Two => word::bit(status, bits::BTF),
        Flag::Rxne => true,
    }
}

// The wait is over.
#[tactic(auto, using(crate::proofs::Laws::stand_back, crate::proofs::Laws::image, crate::proofs::Laws::place_at))]
fn waited(block: &mut [u8; 32], here: Here, left: u16, flag: Flag) -> Asked
    ensures { Goes here left block.old block.new result (λ (g : Setting) (run : Run) (d : Progress). waited g run flag d) }
{
    match flag {
        Flag::Sb => {
            put::to(block, Stage::Address(AddressStage::Control));
            Asked::read(Register::Ctlr1)
        }
        Flag::Addr => {
            if here.reading & ((left <= 2) & here.nack) {
                put::to(block, Stage::ReadIter(ReadStage::AckRead));
                return Asked::read(Register::Ctlr1);
            }
            put::to(block, Stage::Address(AddressStage::Cleared));
            Asked::read(Register::Star2)
        }
        Flag::Txe => {
            let place = block.word(at::PLACE);
            put::to(block, Stage::SendByte);
            Asked::send(place as u32)
        }
        Flag::Sent => {
            let rest = put::one_less(left);
            put::byte_done(block, rest);
            go::write_bytes(block, here, rest)
        }
        Flag::Three => {
            put::to(block, Stage::ReadIter(ReadStage::NackRead));
            Asked::read(Register::Ctlr1)
        }
        Flag::Two => {
            if here.stops {
                put::to(block, Stage::GenerateStop(StopFor::Two, Half::Read));
                return Asked::read(Register::Ctlr1);
            }
            put::to(block, Stage::ReadIter(ReadStage::AgainRead));
            Asked::read(Register::Ctlr1)
        }
        Flag::Rxne => {
            put::to(block, Stage::RecvByte(RecvStage::Status));
            Asked::read(Register::Star1)
        }
    }
}

// No error in the status word: the test.
#[tactic(auto, using(crate::proofs::Laws::stand_back, crate::proofs::Laws::image))]
fn tests(block: &mut [u8; 32], here: Here, left: u16, flag: Flag, status: u16) -> Asked
    ensures { Within 3 (flagByte flag) here left block.old block.new result (λ (g : Setting) (run : Run) (d : Progress). tests g run flag d status) }
{
    if !is_set(flag, status) {
        put::phase(block, WaitStage::Clock);
        return Asked::clock();
    }
    waited(block, here, left, flag)
}

#[tactic(auto, using(crate::proofs::Laws::stand_back, crate::proofs::Laws::image, crate::proofs::Laws::word_told, crate::proofs::Laws::chip_at))]
fn wait_phase(block: &mut [u8; 32], here: Here, flag: Flag, phase: WaitStage, input: Input) -> Asked
    ensures { Within 3 (flagByte flag) here input.left block.old block.new result (λ (g : Setting) (run : Run) (d : Progress). waits g run phase flag d input.answer) }
{
    let mut status = input.answer;
    match phase {
        WaitStage::Status => {
            let observed = flags::error_flags(input.answer);
            if observed != 0 {
                return go::modifies(
                    block,
                    WaitStage::Clear,
                    input.answer,
                    Register::Star1,
                    flags::clear_error(observed),
                );
            }
        }
        WaitStage::Clear => {
            status = block.word(at::WORD);
            let chip = numbers::chip_of(block[at::CHIP]);
            if let Some(failure) = errors::error_of(status, chip, true) {
                return go::fails(block, failure);
            }
        }
        WaitStage::Clock => {
            if next::late(input.answer) {
                return go::fails(block, Error::Timeout.into());
            }
            put::phase(block, WaitStage::Status);
            return Asked::read(Register::Star1);
        }
    }
    tests(block, here, input.left, flag, status)
}

pub fn wait_flag(block: &mut [u8; 32], here: Here, input: Input) -> Asked
    ensures { Group 3 here input block.old block.new result }
{
    let Some(flag) = Flag::of(input.what) else {
        return Asked::refused();
    };
    let Some(phase) = WaitStage::of(input.phase) else {
        return Asked::refused();
    };
    if !fits_wait(here, input.left, flag) {
        return Asked::refused();
    }
    wait_phase(block, here, flag, phase, input)
}
