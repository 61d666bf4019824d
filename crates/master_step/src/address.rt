// From SB to the run's bytes.
#![tactic(auto, using(crate::proofs::Laws::stand_back, crate::proofs::Laws::image))]

ghost use Rattle.std.specs.Prelude.{◌≡◌};
ghost use Rattle.master.specs.declared.call.Setting.{Setting};
ghost use Rattle.master.specs.declared.state.Progress.{Progress};
ghost use Rattle.operations.specs.declared.search.Run.{Run};
ghost use Rattle.master.specs.Machine.{read_addressed, addressed, address_phase};
ghost use Rattle.master_step.specs.Held.{Goes, Within, Group};

use crate::here::Here;
use crate::input::Input;
use crate::{go, put};
use access::Error;
use asked::Asked;
use block::{Block, at};
use master::Stage;
use master::stage::{AddressStage, Flag, Half, ReadStage, StopFor, WaitStage};
use registers::{Register, addresses, bits, word};
use stage_numbers::Numbered;

// if remaining == 1 && send_stop { generate_stop() } else if remaining == 1 && send_nack { ctlr1.modify(set_start(true)) }
fn read_addressed(block: &mut [u8; 32], here: Here, left: u16) -> Asked
    ensures { Goes here left block.old block.new result read_addressed }
{
    if (left == 1) & here.stops {
        put::to(block, Stage::GenerateStop(StopFor::One, Half::Read));
        return Asked::read(Register::Ctlr1);
    }
    if (left == 1) & here.nack {
        put::to(block, Stage::ReadIter(ReadStage::StartRead));
        return Asked::read(Register::Ctlr1);
    }
    go::read_bytes(block, here, left)
}

fn addressed(block: &mut [u8; 32], here: Here, left: u16) -> Asked
    ensures { Goes here left block.old block.new result addressed }
{
    if here.reading {
        return read_addressed(block, here, left);
    }
    go::write_bytes(block, here, left)
}

// if ctlr1.read().start() || !star2.read().msl() { return Err(Arbitration) }, and then datar.write(address); STAR2 is read behind ADDR.
#[tactic(auto, using(crate::proofs::Laws::stand_back, crate::proofs::Laws::image, crate::proofs::Laws::address_told))]
fn address_at(block: &mut [u8; 32], here: Here, phase: AddressStage, input: Input) -> Asked
    ensures { Within 4 0 here input.left block.old block.new result (λ (g : Setting) (run : Run) (d : Progress). address_phase g run phase d input.answer) }
{
    match phase {
        AddressStage::Control => {
            if word::bit(input.answer, bits::START) {
                return go::fails(block, Error::Arbitration.into());
            }
            put::phase(block, AddressStage::Master);
            Asked::read(Register::Star2)
        }
        AddressStage::Master => {
            if !word::bit(input.answer, bits::MSL) {
                return go::fails(block, Error::Arbitration.into());
            }
            let address = block.word(at::ADDRESS);
            put::phase(block, AddressStage::Word);
            Asked::write(
                Register::Datar,
                addresses::address_word(address, here.reading),
            )
        }
        AddressStage::Word => {
            put::to(block, Stage::Wait(Flag::Addr, WaitStage::Status));
            Asked::read(Register::Star1)
        }
        AddressStage::Cleared => addressed(block, here, input.left),
    }
}

pub fn address_phase(block: &mut [u8; 32], here: Here, input: Input) -> Asked
    ensures { Group 4 here input block.old block.new result }
{
    let Some(phase) = AddressStage::of(input.phase) else {
        return Asked::refused();
    };
    if !((input.what == 0) & here.starting(input.left)) {
        return Asked::refused();
    }
    address_at(block, here, phase, input)
}
