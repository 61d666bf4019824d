// What a step asks of the block before it looks at the stage: its count, and its ending.
ghost use Rattle.std.specs.Prelude.{◌≡◌, ℕ, leb};
ghost use Rattle.block.specs.Bytes32.{fields_of, long_at};
ghost use Rattle.images.specs.EndImage.{ending_at};
ghost use Rattle.images.specs.SlaveImage.{kind_of};
ghost use Rattle.slave.specs.Fits.{limit, can_return, returns_in};
ghost use Rattle.slave_step.specs.Held.{said_in, closing, is_seen};

use crate::here::Here;
use crate::{poll, stage};
use images::end_image;
use slave::Kind;
use slave::stage::StopfFor;
use stage_numbers::Numbered;

// The count is at most the buffer's length, or one more than the data's.
fn counts(here: Here) -> bool
    ensures { result ≡ leb here.count (limit here.kind here.size) }
{
    match here.kind {
        Kind::Listen => here.count <= 0,
        Kind::RespondToWrite => here.count <= here.size as u32,
        Kind::RespondToRead => here.count <= here.size as u32 + 1,
    }
}

// What a call can return: a command, the bytes stored, or the bytes left over twice, with one taken off the count or none. The first is
// the second, or has none taken off.
fn can_return(here: Here, value: u16, second: u16) -> bool
    ensures { result ≡ can_return here.kind here.size here.count value second }
{
    match here.kind {
        Kind::Listen => (value < 12288) & (second == 0),
        Kind::RespondToWrite => (value as u32 == here.count) & (second == 0),
        Kind::RespondToRead => {
            let none_off = poll::left_over(here.size, here.count);
            let one_off = poll::left_over(here.size, here.count.saturating_sub(1));
            ((second == none_off) | (second == one_off)) & ((value == second) | (value == none_off))
        }
    }
}

// What is to be returned is known.
#[tactic(auto, using(crate::proofs::ReadyLaws::returns_told))]
fn returns(block: &[u8; 32], here: Here) -> bool
    ensures { result ≡ returns_in here.kind here.size here.count (ending_at block.now) }
{
    let words = end_image::words(block);
    (words.error == 0) & can_return(here, words.value, words.extra)
}

// The stages in which what is to be returned is known: STOPF is cleared at the end of a response, or AF. (By the block's two numbers, before they are looked up.)
fn is_closing(group: u8, what: u8) -> bool
    ensures { result ≡ closing group what }
{
    ((group == stage::CLEAR_STOPF) & (what == StopfFor::End.number())) | (group == stage::CLEAR_AF)
}

// The count is one that the call can have, and the ending one that the stages of the group have.
#[inline(always)]
#[tactic(auto, using(crate::proofs::ReadyLaws::seen_closing, crate::proofs::ReadyLaws::seen_failed, crate::proofs::ReadyLaws::seen_done))]
pub fn is_ready(block: &[u8; 32], here: Here, group: u8) -> bool
    requires { here.count ≡ long_at block.now 24 }
    ensures { (entry : ℕ) → here.kind ≡ kind_of entry → result ≡ is_seen (said_in entry here.size (fields_of block.now)) group here.what }
{
    if is_closing(group, here.what) {
        return counts(here) & returns(block, here);
    }
    if group == stage::ABORT {
        return counts(here) & end_image::has_failed(block, false);
    }
    counts(here) & end_image::is_done(block)
}
