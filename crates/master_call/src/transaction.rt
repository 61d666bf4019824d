// A step of a transaction: its runs are the list's. (The list and the two lengths by value: the struct that has them is a call of crate `calls`, above
// this one.)
ghost use Rattle.std.specs.Prelude.{◌≡◌, length};
ghost use Rattle.master_call.specs.CallStep.{CallSteps};

use crate::{held, here};
use asked::Asked;
use block::{Block, at};
use images::numbers::Entry;
use list_run::find;
use master_step::step;

#[tactic(auto, using(list_run::proofs::AnswerLaws::found_fits))]
pub fn transaction_step(
    block: &mut [u8; 32],
    list: &[u8],
    written: usize,
    room: usize,
    answer: u16,
) -> Asked
    ensures { CallSteps 2 list.now written room answer block.old block.new result }
{
    let address = block.word(at::ADDRESS);
    let run = block.word(at::RUN);
    if held::is_call_of(block, Entry::Transaction as u8) & (address <= 127) {
        let Some(found) = find::find(list, written, room, run) else {
            return Asked::refused();
        };
        let length = found.length as u16;
        let before = found.before as u16;
        let here = here::here_by(found.reading, length, before, found.more, 0);
        return step::step_in(block, here, answer);
    }
    Asked::refused()
}
