// After an error: `abort_slave_transfer`.
ghost use Rattle.std.specs.Prelude.{◌≡◌};
ghost use Rattle.slave.specs.Machine.{without_slave_transfers, abort_slave_transfer_move};
ghost use Rattle.stage_numbers.specs.SlaveStage.{abort_stage_number};
ghost use Rattle.slave_step.specs.Held.{Call, image, Stands, Group, Moves};

use crate::go;
use crate::here::Here;
use asked::Asked;
use block::Block;
use registers::{Register, bits, fields, word};
use slave::stage::AbortStage;
use stage_numbers::Numbered;

// CTLR2 without its transfer bits.
fn disable_slave_transfers(control: u16) -> u16
    ensures { result ≡ without_slave_transfers control }
{
    word::put_field(control, fields::SLAVE_TRANSFER, 0)
}

// disable_slave_transfers; then STOP, if the slave is still addressed.
#[tactic(auto, using(crate::proofs::Laws::end_at), unfolding(block::specs::Bytes32::bytes_of, images::specs::SlaveImage::slave_fields, crate::specs::Held::block_at, crate::specs::Held::fields_at))]
fn abort_phase(block: &mut [u8; 32], phase: AbortStage, answer: u16) -> Asked
    ghost s: { Call }
    requires { image s 9 0 (abort_stage_number phase) ≡ block.old }
    ensures { Moves s.setting (abort_slave_transfer_move phase s.progress answer) block.new result }
{
    match phase {
        AbortStage::DisableRead => {
            let disabled = disable_slave_transfers(answer);
            go::modifies(
                block,
                AbortStage::DisableWrite,
                answer,
                Register::Ctlr2,
                disabled,
            )
        }
        AbortStage::DisableWrite => {
            block.phase(AbortStage::Busy.number());
            Asked::read(Register::Star2)
        }
        AbortStage::Busy => {
            if word::bit(answer, bits::BUSY) & !word::bit(answer, bits::MSL) {
                block.phase(AbortStage::StopRead.number());
                return Asked::read(Register::Ctlr1);
            }
            go::ends(block)
        }
        AbortStage::StopRead => {
            let stopped = word::set_bit(answer, bits::STOP);
            go::modifies(
                block,
                AbortStage::StopWrite,
                answer,
                Register::Ctlr1,
                stopped,
            )
        }
        AbortStage::StopWrite => go::ends(block),
    }
}

#[inline(always)]
pub fn abort_slave_transfer(block: &mut [u8; 32], here: Here) -> Asked
    ghost s: { Call }
    requires { Stands s here 9 block.old }
    ensures { Group 9 s here block.old block.new result }
{
    let Some(phase) = AbortStage::of(here.phase) else {
        return Asked::refused();
    };
    if here.what != 0 {
        return Asked::refused();
    }
    abort_phase(block, phase, here.answer)
}
