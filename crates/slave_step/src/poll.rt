// A turn of the three loops, by its status word; errors and the clock, where a turn finds nothing to do.
#![tactic(auto, unfolding(block::specs::Bytes32::bytes_of, images::specs::SlaveImage::slave_fields, crate::specs::Held::block_at, crate::specs::Held::fields_at))]

ghost use Rattle.std.specs.Prelude.{◌≡◌, ◌≤◌};
ghost use Rattle.registers.specs.declared.register.Register.TheVariants.{Star1};
ghost use Rattle.access.specs.declared.need.Need.TheVariants as need;
ghost use Rattle.access.specs.Endings.{returned_both};
ghost use Rattle.block.specs.Bytes32.{at_stage};
ghost use Rattle.images.specs.EndImage.{with_ending};
ghost use Rattle.slave.specs.declared.stage.ErrorStage.TheVariants as errors;
ghost use Rattle.slave.specs.Machine.{slave_handle_errors, blocking_listen, blocking_respond_to_write, blocking_respond_to_read, leftover, sent_taken_off, check_errors_and_time};
ghost use Rattle.stage_numbers.specs.SlaveStage.{error_stage_number};
ghost use Rattle.slave_step.specs.Held.{Call, image, Stands, Group, Moves};

use crate::go;
use crate::here::Here;
use access::{Error, ending, next};
use asked::Asked;
use block::{Block, at};
use images::{end_image, numbers};
use registers::{Register, bits, flags, word};
use slave::stage::{ErrorStage, Half, MatchStage, StopfFor, StopfStage};
use slave::{Kind, Stage};
use stage_numbers::Numbered;

// The status word: its error flags are to be cleared, or there is none.
fn slave_handle_errors(block: &mut [u8; 32], status: u16) -> Asked
    ghost s: { Call }
    requires { image s 3 0 0 ≡ block.old }
    ensures { Moves s.setting (slave_handle_errors s.progress status) block.new result }
{
    let observed = flags::error_flags(status);
    if observed != 0 {
        block.put_word(at::WORD, status);
        go::to(block, Stage::Errors(ErrorStage::Clear));
        return Asked::write(Register::Star1, flags::clear_error(observed));
    }
    go::to(block, Stage::Errors(ErrorStage::Clock));
    Asked::clock()
}

fn blocking_listen(block: &mut [u8; 32], status: u16) -> Asked
    ghost s: { Call }
    requires { image s 3 0 0 ≡ block.old }
    ensures { Moves s.setting (blocking_listen s.progress status) block.new result }
{
    if word::bit(status, bits::ADDR) {
        go::to(block, Stage::Match(MatchStage::Status));
        return Asked::read(Register::Star2);
    }
    slave_handle_errors(block, status)
}

// What is returned is known, and STOPF is to be cleared.
fn stops(block: &mut [u8; 32], value: u16, second: u16) -> Asked
    ensures block { block.new ≡ at_stage 0 1 0 (with_ending (returned_both value second) block.old) }
    ensures asks { result ≡ need.Read Star1 }
{
    end_image::put(block, ending::returned_both(value, second));
    go::to(block, Stage::ClearStopf(StopfFor::End, StopfStage::Status));
    Asked::read(Register::Star1)
}

// RXNE is looked at before all else. A byte past the buffer is read and dropped.
fn blocking_respond_to_write(block: &mut [u8; 32], size: u16, count: u32, status: u16) -> Asked
    ghost s: { Call }
    requires held { image s 3 0 0 ≡ block.old }
    requires lent { s.setting.size ≡ size }
    requires counted { s.progress.count ≡ count }
    requires room { count ≤ size }
    ensures { Moves s.setting (blocking_respond_to_write s.progress status) block.new result }
{
    if word::bit(status, bits::RXNE) {
        go::to(block, Stage::Receive);
        if count < size as u32 {
            return Asked::keep(count);
        }
        return Asked::drop();
    }
    if word::bit(status, bits::STOPF) {
        return stops(block, (count % 65536) as u16, 0);
    }
    if word::bit(status, bits::ADDR) {
        return go::returns(block, (count % 65536) as u16, 0);
    }
    slave_handle_errors(block, status)
}

// How many of `size` bytes are left over when `sent` are sent.
pub fn left_over(size: u16, sent: u32) -> u16
    ensures { result ≡ leftover size sent }
{
    (size as u32).saturating_sub(sent) as u16
}

// With TXE clear the last byte was not clocked out.
fn taken_off(status: u16, sent: u32) -> u32
    ensures { result ≡ sent_taken_off status sent }
{
    if word::bit(status, bits::TXE) {
        sent
    } else {
        sent.saturating_sub(1)
    }
}

// AF is the master's NACK behind the last byte; TXE asks for the next. The second count has the byte taken off at AF too, where the
// Rust's keeps it.
fn blocking_respond_to_read(block: &mut [u8; 32], size: u16, count: u32, status: u16) -> Asked
    ghost s: { Call }
    requires held { image s 3 0 0 ≡ block.old }
    requires lent { s.setting.size ≡ size }
    requires counted { s.progress.count ≡ count }
    ensures { Moves s.setting (blocking_respond_to_read size s.progress status) block.new result }
{
    if word::bit(status, bits::AF) {
        let left = left_over(size, count);
        let second = left_over(size, taken_off(status, count));
        end_image::put(block, ending::returned_both(left, second));
        go::to(block, Stage::ClearAf(Half::Read));
        return Asked::read(Register::Star1);
    }
    if word::bit(status, bits::STOPF) {
        let left = left_over(size, taken_off(status, count));
        return stops(block, left, left);
    }
    if word::bit(status, bits::ADDR) {
        let left = left_over(size, taken_off(status, count));
        return go::returns(block, left, left);
    }
    if word::bit(status, bits::TXE) {
        go::to(block, Stage::Send);
        return Asked::send(count);
    }
    slave_handle_errors(block, status)
}

// let star1 = regs.star1().read(). (What the call makes of the word by a `match`, as in `step_at`.)
#[inline(always)]
#[tactic(auto, using(crate::proofs::GroupLaws::poll_decides, crate::proofs::MoveLaws::room))]
pub fn polls(block: &mut [u8; 32], here: Here) -> Asked
    ghost s: { Call }
    requires { Stands s here 3 block.old }
    ensures { Group 3 s here block.old block.new result }
{
    if !((here.what == 0) & (here.phase == 0)) {
        return Asked::refused();
    }
    match here.kind {
        Kind::Listen => blocking_listen(block, here.answer),
        Kind::RespondToWrite => blocking_respond_to_write(
            block,
            here.size,
            here.count,
            here.answer,
        ),
        Kind::RespondToRead => blocking_respond_to_read(block, here.size, here.count, here.answer),
    }
}

// The flags of the saved word are cleared: the first decides, and AF decides nothing.
#[tactic(auto, using(crate::proofs::Laws::word_at_lem, images::proofs::NumberLaws::chip_back), unfolding(block::specs::Bytes32::bytes_of, images::specs::SlaveImage::slave_fields, crate::specs::Held::block_at, crate::specs::Held::fields_at))]
fn judged(block: &mut [u8; 32]) -> Asked
    ghost s: { Call }
    requires { image s 8 0 0 ≡ block.old }
    ensures { Moves s.setting (check_errors_and_time s.setting.chip errors.Clear s.progress 0) block.new result }
{
    let status = block.word(at::WORD);
    let chip = numbers::chip_of(block[at::CHIP]);
    match errors::error_of(status, chip, false) {
        None => {
            block.phase(ErrorStage::Clock.number());
            Asked::clock()
        }
        Some(failure) => go::fails(block, failure),
    }
}

// slave_handle_errors(star1)?; timeout.check().ok_or(Error::Timeout)?
fn error_phase(block: &mut [u8; 32], phase: ErrorStage, answer: u16) -> Asked
    ghost s: { Call }
    requires { image s 8 0 (error_stage_number phase) ≡ block.old }
    ensures { Moves s.setting (check_errors_and_time s.setting.chip phase s.progress answer) block.new result }
{
    match phase {
        ErrorStage::Clear => judged(block),
        ErrorStage::Clock => {
            if next::late(answer) {
                return go::fails(block, Error::Timeout.into());
            }
            go::to(block, Stage::Poll);
            Asked::read(Register::Star1)
        }
    }
}

#[inline(always)]
pub fn check_errors_and_time(block: &mut [u8; 32], here: Here) -> Asked
    ghost s: { Call }
    requires { Stands s here 8 block.old }
    ensures { Group 8 s here block.old block.new result }
{
    let Some(phase) = ErrorStage::of(here.phase) else {
        return Asked::refused();
    };
    if here.what != 0 {
        return Asked::refused();
    }
    error_phase(block, phase, here.answer)
}
