// datar.write(byte)
ghost use Rattle.std.specs.Prelude.{◌≡◌, ◌&&◌, eqb};
ghost use Rattle.master_step.specs.Going.{sending_in};
ghost use Rattle.master_step.specs.Held.{Group};

use crate::here::Here;
use crate::input::Input;
use crate::put;
use asked::Asked;
use master::Stage;
use master::stage::{Flag, WaitStage};
use registers::Register;

fn fits_send(here: Here, input: Input) -> bool
    ensures { result ≡ eqb input.what 0 && (eqb input.phase 0 && sending_in here input.left) }
{
    (input.what == 0) & ((input.phase == 0) & here.sending(input.left))
}

// The byte is out: BTF is waited for. Nothing is read, so there is no answer to look at.
pub fn send_byte(block: &mut [u8; 32], here: Here, input: Input) -> Asked
    ensures { Group 5 here input block.old block.new result }
{
    if !fits_send(here, input) {
        return Asked::refused();
    }
    put::to(block, Stage::Wait(Flag::Sent, WaitStage::Status));
    Asked::read(Register::Star1)
}
