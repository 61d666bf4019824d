// The bytes of a read run.
#![tactic(auto, using(crate::proofs::Laws::stand_back, crate::proofs::Laws::image))]

ghost use Rattle.std.specs.Prelude.{◌≡◌};
ghost use Rattle.master.specs.declared.call.Setting.{Setting};
ghost use Rattle.master.specs.declared.state.Progress.{Progress};
ghost use Rattle.operations.specs.declared.search.Run.{Run};
ghost use Rattle.master.specs.Machine.{recv_byte, blocking_read_iter};
ghost use Rattle.master_step.specs.Going.{short_nack_in, start_behind_in, start_before_in, read_closing_in, fits_read_in};
ghost use Rattle.master_step.specs.Held.{Within, Group};

use crate::here::Here;
use crate::input::Input;
use crate::{go, put};
use asked::Asked;
use master::Stage;
use master::stage::{AddressStage, Fall, FallStage, Flag, ReadStage, RecvStage, WaitStage};
use registers::{Register, bits, word};
use stage_numbers::Numbered;

// while { check_and_clear_error_flags()?; !star1.read().rx_ne() } { timeout.check()? }, and then datar.read(): RXNE is tested in a
// second word.
fn recv_phase(block: &mut [u8; 32], here: Here, phase: RecvStage, input: Input) -> Asked
    ensures { Within 6 0 here input.left block.old block.new result (λ (g : Setting) (run : Run) (d : Progress). recv_byte g run phase d input.answer) }
{
    match phase {
        RecvStage::Status => {
            if !word::bit(input.answer, bits::RXNE) {
                put::to(block, Stage::Wait(Flag::Rxne, WaitStage::Clock));
                return Asked::clock();
            }
            go::keeps(block, Stage::RecvByte(RecvStage::Data))
        }
        RecvStage::Data => {
            let rest = put::one_less(input.left);
            put::byte_done(block, rest);
            go::read_bytes(block, here, rest)
        }
    }
}

pub fn recv_byte(block: &mut [u8; 32], here: Here, input: Input) -> Asked
    ensures { Group 6 here input block.old block.new result }
{
    let Some(phase) = RecvStage::of(input.phase) else {
        return Asked::refused();
    };
    if !((input.what == 0) & here.receiving(input.left)) {
        return Asked::refused();
    }
    recv_phase(block, here, phase, input)
}

// One or two bytes are read, with NACK.
fn short_nack(here: Here, left: u16) -> bool
    ensures { result ≡ short_nack_in here left }
{
    here.reading & (here.starting(left) & ((here.length <= 2) & here.nack))
}

// One byte is read, and START asked behind it.
fn start_behind(here: Here, left: u16) -> bool
    ensures { result ≡ start_behind_in here left }
{
    here.single(left) & (here.nack & !here.stops)
}

// Two bytes are left, and START is asked before them.
fn start_before(here: Here, left: u16) -> bool
    ensures { result ≡ start_before_in here left }
{
    here.last_ones(left, 2) & !here.stops
}

// A read run ends with STOP.
fn read_closing(here: Here, left: u16) -> bool
    ensures { result ≡ read_closing_in here left }
{
    here.reading & here.closing(left)
}

fn fits_read(here: Here, left: u16, phase: ReadStage) -> bool
    ensures { result ≡ fits_read_in here left phase }
{
    match phase {
        ReadStage::PosWrite => here.reading & (left == here.length),
        ReadStage::AckRead | ReadStage::AckWrite => short_nack(here, left),
        ReadStage::StartRead | ReadStage::StartWrite => start_behind(here, left),
        ReadStage::NackRead | ReadStage::NackWrite | ReadStage::Third => { here.last_ones(left, 3) }
        ReadStage::AgainRead | ReadStage::AgainWrite => start_before(here, left),
        ReadStage::SecondLast => here.last_ones(left, 2),
        ReadStage::Last => here.last_ones(left, 1),
        ReadStage::PosOffRead | ReadStage::PosOffWrite => read_closing(here, left),
    }
}

// The read's own accesses: POS and ACK, the START behind it, and the bytes that BTF tells of.
fn read_phase(block: &mut [u8; 32], here: Here, phase: ReadStage, input: Input) -> Asked
    ensures { Within 7 0 here input.left block.old block.new result (λ (g : Setting) (run : Run) (d : Progress). blocking_read_iter g run phase d input.answer) }
{
    match phase {
        // ctlr1.modify(set_pos(remaining == 2 && send_nack)) is done.
        ReadStage::PosWrite => {
            if here.start {
                put::to(block, Stage::WaitStop(Fall::Start, FallStage::Control));
                return Asked::read(Register::Ctlr1);
            }
            go::read_bytes(block, here, input.left)
        }
        // if remaining <= 2 && send_nack { ctlr1.modify(set_ack(false)) }
        ReadStage::AckRead => {
            let off = word::clear_bit(input.answer, bits::ACK);
            go::modifies(
                block,
                ReadStage::AckWrite,
                input.answer,
                Register::Ctlr1,
                off,
            )
        }
        ReadStage::AckWrite => {
            put::to(block, Stage::Address(AddressStage::Cleared));
            Asked::read(Register::Star2)
        }
        // else if remaining == 1 && send_nack { ctlr1.modify(set_start(true)) }
        ReadStage::StartRead => {
            let on = word::set_bit(input.answer, bits::START);
            go::modifies(
                block,
                ReadStage::StartWrite,
                input.answer,
                Register::Ctlr1,
                on,
            )
        }
        ReadStage::StartWrite => go::read_bytes(block, here, input.left),
        // if remaining == 3 { ctlr1.modify(set_ack(false)); datar.read(); wait_btf()? }
        ReadStage::NackRead => {
            let off = word::clear_bit(input.answer, bits::ACK);
            go::modifies(
                block,
                ReadStage::NackWrite,
                input.answer,
                Register::Ctlr1,
                off,
            )
        }
        ReadStage::NackWrite => go::keeps(block, Stage::ReadIter(ReadStage::Third)),
        ReadStage::Third => {
            put::byte_done(block, put::one_less(input.left));
            put::to(block, Stage::Wait(Flag::Two, WaitStage::Status));
            Asked::read(Register::Star1)
        }
        // ctlr1.modify(set_start(true)); datar.read(); datar.read()
        ReadStage::AgainRead => {
            let on = word::set_bit(input.answer, bits::START);
            go::modifies(
                block,
                ReadStage::AgainWrite,
                input.answer,
                Register::Ctlr1,
                on,
            )
        }
        ReadStage::AgainWrite => go::keeps(block, Stage::ReadIter(ReadStage::SecondLast)),
        ReadStage::SecondLast => {
            put::byte_done(block, put::one_less(input.left));
            go::keeps(block, Stage::ReadIter(ReadStage::Last))
        }
        ReadStage::Last => {
            let rest = put::one_less(input.left);
            put::byte_done(block, rest);
            go::finished(block, here, rest)
        }
        // if send_stop { wait_stop_finished()?; ctlr1.modify(set_pos(false)) }
        ReadStage::PosOffRead => {
            let off = word::clear_bit(input.answer, bits::POS);
            go::modifies(
                block,
                ReadStage::PosOffWrite,
                input.answer,
                Register::Ctlr1,
                off,
            )
        }
        ReadStage::PosOffWrite => go::ends(block, here, input.left),
    }
}

pub fn blocking_read_iter(block: &mut [u8; 32], here: Here, input: Input) -> Asked
    ensures { Group 7 here input block.old block.new result }
{
    let Some(phase) = ReadStage::of(input.phase) else {
        return Asked::refused();
    };
    if !((input.what == 0) & fits_read(here, input.left, phase)) {
        return Asked::refused();
    }
    read_phase(block, here, phase, input)
}
