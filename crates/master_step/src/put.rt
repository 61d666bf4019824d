// The bytes that a move changes, and no others.
ghost use Rattle.std.specs.Prelude.{◌≡◌, pred, Err};
ghost use Rattle.master.specs.Machine.{ends_with, saves, saves_divider, saves_rise, byte_done, begun, next_run, next16};
ghost use Rattle.stage_numbers.specs.MasterStage.{stage_group, stage_what, stage_phase};
ghost use Rattle.master_step.specs.Held.{Puts, at_stage, at_phase, on, progress_in, run_in};

use crate::here::Here;
use access::Failure;
use block::{Block, at};
use images::{end_image, numbers};
use master::Stage;
use stage_numbers::{Numbered, master_stage};

// On to another stage.
#[inline(always)]
#[tactic(auto, using(crate::proofs::Laws::to_stage))]
pub fn to(block: &mut [u8; 32], stage: Stage)
    ensures { Puts block.old block.new (at_stage (stage_group stage) (stage_what stage) (stage_phase stage)) }
{
    let (group, what, phase) = master_stage::numbers_of(stage);
    block.to(group, what, phase);
}

// On to another phase of the stage.
#[inline(always)]
#[tactic(auto, using(crate::proofs::Laws::to_phase))]
pub fn phase<P: Numbered>(block: &mut [u8; 32], phase: P)
    ensures { Puts block.old block.new (at_phase (P.number_of phase)) }
{
    block.phase(phase.number());
}

// The word of the last read.
#[tactic(auto, using(crate::proofs::Laws::saved))]
pub fn saves(block: &mut [u8; 32], word: u16)
    ensures { Puts block.old block.new (on (saves word)) }
{
    block.put_word(at::WORD, word);
}

// The words that an abort reads before its reset.
#[tactic(auto, using(crate::proofs::Laws::saved_divider))]
pub fn saves_divider(block: &mut [u8; 32], word: u16)
    ensures { Puts block.old block.new (on (saves_divider word)) }
{
    block.put_word(at::DIVIDER, word);
}

#[tactic(auto, using(crate::proofs::Laws::saved_rise))]
pub fn saves_rise(block: &mut [u8; 32], word: u16)
    ensures { Puts block.old block.new (on (saves_rise word)) }
{
    block.put_word(at::RISE, word);
}

fn next16(n: u16) -> u16
    ensures { result ≡ next16 n }
{
    n.checked_add(1).unwrap_or(0)
}

pub fn one_less(n: u16) -> u16
    ensures { result ≡ pred n }
{
    n.saturating_sub(1)
}

// A byte of the run is sent, or has arrived: so many are left.
#[tactic(auto, using(crate::proofs::Laws::done_byte))]
pub fn byte_done(block: &mut [u8; 32], left: u16)
    ensures { left ≡ pred (progress_in block.old).left → Puts block.old block.new (on byte_done) }
{
    let place = next16(block.word(at::PLACE));
    block.put_word(at::LEFT, left);
    block.put_word(at::PLACE, place);
}

// How the call is to end.
pub fn failed(block: &mut [u8; 32], failure: Failure)
    ensures { Puts block.old block.new (on (ends_with (Err failure))) }
{
    end_image::put(block, Err(failure));
}

// The run begins.
#[tactic(auto, using(crate::proofs::Laws::begun_here))]
pub fn begun(block: &mut [u8; 32], here: Here)
    ensures { Puts block.old block.new (on (begun (run_in here))) }
{
    block[at::MARKS] = numbers::flag_number(here.reading);
    block.put_word(at::LEFT, here.length);
    block.put_word(at::PLACE, here.before);
}

// On to the next run.
#[tactic(auto, using(crate::proofs::Laws::next_begun))]
pub fn next_run(block: &mut [u8; 32])
    ensures { Puts block.old block.new (on next_run) }
{
    let run = next16(block.word(at::RUN));
    block[at::MARKS] = 0;
    block.put_word(at::RUN, run);
    block.put_word(at::LEFT, 0);
    block.put_word(at::PLACE, 0);
}
