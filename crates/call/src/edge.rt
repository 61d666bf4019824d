// Where C calls: the block as a pointer and a length, and the bytes lent.
ghost use Rattle.std.specs.Prelude.{[]};
ghost use Rattle.call.specs.OnBlock.{Does};
ghost use Rattle.call.specs.Left.{begin_left, step_left, Leaves, LeavesBlock};
ghost use Rattle.call.specs.Edge.{in_block, begun_with, begin_at};

use crate::{Call, Reads, payload};
use access::Error;
use asked::Asked;

// Begin of any call in a block of 32 bytes; without arguments, those that C passed mean nothing.
pub fn begin<C: Call<Store = [u8; 32]>>(
    call: &C,
    args: Option<C::Args>,
    block: &mut [u8],
    written: &[u8],
) -> u64
    ensures { LeavesBlock (begin_left written.now (begin_at (C.on call.now) args block.old) []) result block.new }
{
    let asked = match block.as_mut_array::<32>() {
        Some(whole) => begin_whole(call, args, whole),
        None => Asked::refused(),
    };
    asked.shown(written)
}

fn begin_whole<C: Call>(call: &C, args: Option<C::Args>, block: &mut C::Store) -> Asked
    ensures { Does (begun_with (C.on call.now) args block.old) result block.new }
{
    let Some(args) = args else {
        return Asked::refusal(Error::InvalidArgument);
    };
    match call.begin(args, block) {
        Ok(asked) => asked,
        Err(error) => Asked::refusal(error),
    }
}

// A step of any call in a block of 32 bytes, where nothing is lent to read. (Inlined into what C calls, where the call is known: a
// reply's step costs 95 instructions for 126.)
#[inline(always)]
#[tactic(auto, unfolding(crate::specs::OnBlock::step_on))]
pub fn step<C: Call<Store = [u8; 32]>>(
    call: &C,
    block: &mut [u8],
    written: &[u8],
    answer: u16,
) -> u64
    ensures { LeavesBlock (step_left (in_block (C.on call.now)) written.now block.old [] answer) result block.new }
{
    let Some(whole) = block.as_mut_array::<32>() else {
        return Asked::refused().shown(written);
    };
    call.step(whole, answer).shown(written)
}

// The same of a call that reads: the answer's byte is stored, if it is one to keep and the step is taken.
#[inline(always)]
#[tactic(auto, unfolding(crate::specs::OnBlock::step_on))]
pub fn step_reading<C: Reads<Store = [u8; 32]>>(
    call: &C,
    block: &mut [u8],
    written: &[u8],
    read: &mut [u8],
    answer: u16,
) -> u64
    ensures { Leaves (step_left (in_block (C.on call.now)) written.now block.old read.old answer) result block.new read.new }
{
    let Some(whole) = block.as_mut_array::<32>() else {
        return Asked::refused().shown(written);
    };
    let kept_at = call.kept_at(whole);
    let asked = call.step(whole, answer);
    payload::keep(kept_at, asked.is_refused(), read, answer);
    asked.shown(written)
}
