// A step of a frame: its only run is all that is lent. (A write and a read have a function each: one for both would test the direction anew in each
// step, under a contract that names both cases.)
ghost use Rattle.std.specs.Prelude.{◌≡◌, []};
ghost use Rattle.master_call.specs.CallStep.{CallSteps};

use crate::{held, here};
use asked::Asked;
use block::{Block, at};
use images::numbers::Entry;
use master_step::step;

// A write of so many bytes.
#[tactic(auto, using(crate::proofs::RunLaws::write_short))]
pub fn write_step(block: &mut [u8; 32], written: usize, answer: u16) -> Asked
    ensures { CallSteps 4 [] written 0 answer block.old block.new result }
{
    let address = block.word(at::ADDRESS);
    let run = block.word(at::RUN);
    if held::is_call_of(block, Entry::Write as u8)
        & ((address <= 127) & ((written <= 65535) & (run == 0)))
    {
        let here = here::here_by(false, written as u16, 0, false, block[at::OPTION]);
        return step::step_in(block, here, answer);
    }
    Asked::refused()
}

// A read of so many.
#[tactic(auto, using(crate::proofs::RunLaws::read_short))]
pub fn read_step(block: &mut [u8; 32], room: usize, answer: u16) -> Asked
    ensures { CallSteps 5 [] 0 room answer block.old block.new result }
{
    let address = block.word(at::ADDRESS);
    let run = block.word(at::RUN);
    if held::is_call_of(block, Entry::Read as u8)
        & ((address <= 127) & ((room != 0) & ((room <= 65535) & (run == 0))))
    {
        let here = here::here_by(true, room as u16, 0, false, block[at::OPTION]);
        return step::step_in(block, here, answer);
    }
    Asked::refused()
}
