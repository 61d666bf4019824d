// A step of a write-read: a run to write, and one to read.
ghost use Rattle.std.specs.Prelude.{◌≡◌, []};
ghost use Rattle.master_call.specs.CallStep.{CallSteps, few_enough};

use crate::{held, here};
use asked::Asked;
use block::{Block, at};
use images::numbers::Entry;
use master_step::step;

// Something to read, and no more than 65,535 bytes together.
#[tactic(auto, using(crate::proofs::HeldLaws::few, crate::proofs::HeldLaws::many))]
fn few_enough(written: usize, room: usize) -> bool
    ensures { result ≡ few_enough written room }
{
    if written <= 65535 {
        return (room != 0) & (room <= 65535 - written);
    }
    false
}

#[tactic(auto, using(crate::proofs::RunLaws::both_short))]
pub fn write_read_step(block: &mut [u8; 32], written: usize, room: usize, answer: u16) -> Asked
    ensures { CallSteps 3 [] written room answer block.old block.new result }
{
    let address = block.word(at::ADDRESS);
    let run = block.word(at::RUN);
    if held::is_call_of(block, Entry::WriteRead as u8)
        & ((address <= 127) & (few_enough(written, room) & (run < 2)))
    {
        if run == 0 {
            let here = here::here_by(false, written as u16, 0, true, 0);
            return step::step_in(block, here, answer);
        }
        let here = here::here_by(true, room as u16, 0, false, 0);
        return step::step_in(block, here, answer);
    }
    Asked::refused()
}
