// The step of a master call, by the group of its stage.
ghost use Rattle.std.specs.Prelude.{◌≡◌, get_or};
ghost use Rattle.stage_numbers.specs.MasterGroup.{group_number};
ghost use Rattle.master_step.specs.Held.{Step, StepHere, StepIn};

use crate::here::Here;
use crate::input::Input;
use crate::{abort, address, begin, read, ready, send, start, stop, wait};
use asked::Asked;
use block::{Block, at};
use stage_numbers::Numbered;
use stage_numbers::master_stage::Group;

// A call that has ended takes no step. (A `match`: a table of functions cannot be handed out, and costs an indirect call.)
#[inline(always)]
fn step(block: &mut [u8; 32], here: Here, group: Group, input: Input) -> Asked
    ensures { Step (group_number group) here input block.old block.new result }
{
    match group {
        Group::Begin => begin::begins(block, here, input),
        Group::WaitStop => start::wait_stop_finished(block, here, input),
        Group::LaunchStart => start::launch_start(block, here, input),
        Group::Wait => wait::wait_flag(block, here, input),
        Group::Address => address::address_phase(block, here, input),
        Group::SendByte => send::send_byte(block, here, input),
        Group::RecvByte => read::recv_byte(block, here, input),
        Group::ReadIter => read::blocking_read_iter(block, here, input),
        Group::GenerateStop => stop::generate_stop(block, here, input),
        Group::Abort => abort::abort_transfer(block, input),
        Group::Ended => Asked::refused(),
    }
}

// The step of a call in the run that `here` tells of, by the numbers of its block.
#[inline(always)]
fn step_of(block: &mut [u8; 32], here: Here, group: Group, answer: u16) -> Asked
    ensures { get_or block.old 3 0 ≡ group_number group → StepHere here answer block.old block.new result }
{
    let left = block.word(at::LEFT);
    if !ready::is_ready(block, here, left, group) {
        return Asked::refused();
    }
    let input = Input {
        left,
        what: block[at::WHAT],
        phase: block[at::PHASE],
        answer,
    };
    step(block, here, group, input)
}

// An abort and a run's first access are apart from the other groups, so that each has a step in which the compiler knows the group.
pub fn step_in(block: &mut [u8; 32], here: Here, answer: u16) -> Asked
    ensures { StepIn here answer block.old block.new result }
{
    let Some(group) = Group::of(block[at::GROUP]) else {
        return Asked::refused();
    };
    match group {
        Group::Abort => step_of(block, here, Group::Abort, answer),
        Group::Begin => step_of(block, here, Group::Begin, answer),
        group => step_of(block, here, group, answer),
    }
}
