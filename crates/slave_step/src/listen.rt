// Listening: ITBUFEN is turned off and ACK on, and an address that matches is decoded.
ghost use Rattle.std.specs.Prelude.{◌≡◌, ◌<◌};
ghost use Rattle.slave.specs.Machine.{arms, kind_of, own_address, decode_slave_address_move};
ghost use Rattle.slave.specs.Numbers.{address_number, command_number};
ghost use Rattle.stage_numbers.specs.SlaveStage.{arm_stage_number, match_stage_number};
ghost use Rattle.slave_step.specs.Held.{Call, image, Stands, Group, Moves};

use crate::go;
use crate::here::Here;
use asked::Asked;
use block::{Block, at};
use registers::{Register, bits, fields, word};
use slave::stage::{ArmStage, MatchStage};
use slave::{SlaveAddress, SlaveCommand, SlaveCommandKind, Stage};
use stage_numbers::Numbered;

// regs.ctlr2().modify(|reg| reg.set_itbufen(false)); regs.ctlr1().modify(|reg| reg.set_ack(true))
#[tactic(auto, unfolding(block::specs::Bytes32::bytes_of, images::specs::SlaveImage::slave_fields, crate::specs::Held::block_at, crate::specs::Held::fields_at))]
fn arm_phase(block: &mut [u8; 32], phase: ArmStage, answer: u16) -> Asked
    ghost s: { Call }
    requires { image s 2 0 (arm_stage_number phase) ≡ block.old }
    ensures { Moves s.setting (arms phase s.progress answer) block.new result }
{
    match phase {
        ArmStage::BufferRead => go::modifies(
            block,
            ArmStage::BufferWrite,
            answer,
            Register::Ctlr2,
            word::clear_bit(answer, bits::ITBUFEN),
        ),
        ArmStage::BufferWrite => {
            block.phase(ArmStage::AckRead.number());
            Asked::read(Register::Ctlr1)
        }
        ArmStage::AckRead => go::modifies(
            block,
            ArmStage::AckWrite,
            answer,
            Register::Ctlr1,
            word::set_bit(answer, bits::ACK),
        ),
        ArmStage::AckWrite => {
            go::to(block, Stage::Poll);
            Asked::read(Register::Star1)
        }
    }
}

#[inline(always)]
pub fn arms(block: &mut [u8; 32], here: Here) -> Asked
    ghost s: { Call }
    requires { Stands s here 2 block.old }
    ensures { Group 2 s here block.old block.new result }
{
    let Some(phase) = ArmStage::of(here.phase) else {
        return Asked::refused();
    };
    if !((here.what == 0) & here.listens()) {
        return Asked::refused();
    }
    arm_phase(block, phase, here.answer)
}

// The kind by STAR2, where GENCALL is clear.
fn kind_of(star2: u16) -> SlaveCommandKind
    ensures { result ≡ kind_of star2 }
{
    if word::bit(star2, bits::TRA) {
        SlaveCommandKind::Read
    } else {
        SlaveCommandKind::Write
    }
}

// The own address, of ten bits with ADDMODE of the same word.
#[tactic(auto, using(crate::proofs::MoveLaws::ten_bound, crate::proofs::MoveLaws::seven_bound))]
fn own_address(oaddr1: u16) -> SlaveAddress
    ensures value { result ≡ own_address oaddr1 }
    ensures upper_bound { address_number result < 2048 }
{
    if word::bit(oaddr1, bits::ADDMODE) {
        return SlaveAddress::TenBit(word::field_of(oaddr1, fields::ADD9_0));
    }
    SlaveAddress::SevenBit(word::field_of(oaddr1, fields::ADD7_1))
}

// What is returned of a command: bits 0 to 9 the address, bit 10 whether it has ten bits, bits 12 and 13 the kind.
fn command_number(command: SlaveCommand) -> u16
    requires { address_number command.address < 2048 }
    ensures { result ≡ command_number command }
{
    let address = match command.address {
        SlaveAddress::SevenBit(address) => address,
        SlaveAddress::TenBit(address) => address + 1024,
    };
    address + command.kind as u16 * 4096
}

// decode_slave_address: STAR2 is read behind ADDR, and the own address that matched where it is not the general call.
#[tactic(auto, using(crate::proofs::Laws::word_at_lem, slave::proofs::FitsKept::second_below), unfolding(block::specs::Bytes32::bytes_of, images::specs::SlaveImage::slave_fields, crate::specs::Held::block_at, crate::specs::Held::fields_at))]
fn match_phase(block: &mut [u8; 32], phase: MatchStage, answer: u16) -> Asked
    ghost s: { Call }
    requires { image s 4 0 (match_stage_number phase) ≡ block.old }
    ensures { Moves s.setting (decode_slave_address_move phase s.progress answer) block.new result }
{
    match phase {
        MatchStage::Status => {
            if word::bit(answer, bits::GENCALL) {
                return go::returns(block, 0, 0);
            }
            block.put_word(at::WORD, answer);
            if word::bit(answer, bits::DUALF) {
                block.phase(MatchStage::Second.number());
                return Asked::read(Register::Oaddr2);
            }
            block.phase(MatchStage::Own.number());
            Asked::read(Register::Oaddr1)
        }
        MatchStage::Second => {
            let kind = kind_of(block.word(at::WORD));
            let address = SlaveAddress::SevenBit(word::field_of(answer, fields::ADD2));
            go::returns(block, command_number(SlaveCommand { kind, address }), 0)
        }
        MatchStage::Own => {
            let kind = kind_of(block.word(at::WORD));
            let address = own_address(answer);
            go::returns(block, command_number(SlaveCommand { kind, address }), 0)
        }
    }
}

#[inline(always)]
pub fn decode_slave_address(block: &mut [u8; 32], here: Here) -> Asked
    ghost s: { Call }
    requires { Stands s here 4 block.old }
    ensures { Group 4 s here block.old block.new result }
{
    let Some(phase) = MatchStage::of(here.phase) else {
        return Asked::refused();
    };
    if !((here.what == 0) & here.listens()) {
        return Asked::refused();
    }
    match_phase(block, phase, here.answer)
}
