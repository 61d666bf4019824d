// The step of a slave call.
ghost use Rattle.std.specs.Prelude.{◌≡◌, get_or};
ghost use Rattle.slave_step.specs.Held.{Call, Stands, Step, StepsFrom, held_in};

use crate::here::Here;
use crate::{abort, clear, held, here, listen, poll, ready, receive, send, stage};
use asked::Asked;
use block::{Block, at};
use images::end_image;

// By the group of its stage. A call that has ended takes no step, and no stage is of another group. (A `match`: a table of functions cannot be handed out, and
// costs an indirect call.)
#[inline(always)]
#[tactic(auto, using(crate::proofs::StepLaws::no_group))]
fn step_at(block: &mut [u8; 32], here: Here, group: u8) -> Asked
    ghost s: { Call }
    requires { Stands s here group block.old }
    ensures { Step group s here block.old block.new result }
{
    match group {
        stage::CLEAR_STOPF => clear::clear_stopf(block, here),
        stage::STALE => clear::clear_slave_stale_flags(block, here),
        stage::ARM => listen::arms(block, here),
        stage::POLL => poll::polls(block, here),
        stage::MATCH => listen::decode_slave_address(block, here),
        stage::RECEIVE => receive::received(block, here),
        stage::SEND => send::sent(block, here),
        stage::CLEAR_AF => clear::clear_af(block, here),
        stage::ERRORS => poll::check_errors_and_time(block, here),
        stage::ABORT => abort::abort_slave_transfer(block, here),
        _ => Asked::refused(),
    }
}

// The whole test of a block for an entry, with so many bytes lent, and the step, where this is the group of its stage.
#[inline(always)]
fn step_of(block: &mut [u8; 32], entry: u8, size: usize, group: u8, answer: u16) -> Asked
    requires { get_or block.old 3 0 ≡ group }
    ensures { StepsFrom (held_in entry block.old) size answer block.old block.new result }
{
    if 65535 < size {
        return Asked::refused();
    }
    let here = Here {
        kind: here::kind_of(entry),
        size: size as u16,
        count: block.long(at::COUNT),
        what: block[at::WHAT],
        phase: block[at::PHASE],
        answer,
    };
    if !(held::is_call(block, entry)
        & (end_image::is_plain(block) & ready::is_ready(block, here, group)))
    {
        return Asked::refused();
    }
    step_at(block, here, group)
}

// The groups of a response's loop are apart from the others, so that each has a step in which the compiler knows the group. (By the entry's number, of which any
// is taken: a type would ask more of callers.)
#[inline(always)]
pub fn step(block: &mut [u8; 32], entry: u8, size: usize, answer: u16) -> Asked
    ensures { StepsFrom (held_in entry block.old) size answer block.old block.new result }
{
    match block[at::GROUP] {
        stage::POLL => step_of(block, entry, size, stage::POLL, answer),
        stage::RECEIVE => step_of(block, entry, size, stage::RECEIVE, answer),
        stage::SEND => step_of(block, entry, size, stage::SEND, answer),
        group => step_of(block, entry, size, group, answer),
    }
}
