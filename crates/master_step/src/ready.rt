// What a step asks of the block before it looks at the stage: the run's counts, and an error where there can be one.
ghost use Rattle.std.specs.Prelude.{◌≡◌};
ghost use Rattle.master.specs.Fits.{counts};
ghost use Rattle.stage_numbers.specs.MasterGroup.{group_number};
ghost use Rattle.master_step.specs.Held.{bytes, stand_in, call_in, progress_in, run_in, ready_at};

use crate::here::Here;
use block::{Block, at};
use images::{end_image, numbers};
use stage_numbers::master_stage::Group;

// The direction is the run's, and so are the bytes that are left.
#[tactic(auto, using(crate::proofs::Laws::place_at, crate::proofs::Laws::flag_at, crate::proofs::ReadyLaws::same_counts))]
fn counts(block: &[u8; 32], here: Here, left: u16) -> bool
    ensures { bytes (stand_in block.now) ≡ block.now → (progress_in block.now).left ≡ left → result ≡ counts (run_in here) (progress_in block.now) }
{
    let place = block.word(at::PLACE);
    (block[at::MARKS] == numbers::flag_number(here.reading))
        & ((left <= here.length)
            & (place as u32 + left as u32 == here.before as u32 + here.length as u32))
}

// Before its first access a run has no counts in the block; an error was met in an abort, with flags that fit it, and nowhere before.
#[inline(always)]
#[tactic(auto, using(crate::proofs::Laws::chip_at, crate::proofs::ReadyLaws::end_told))]
pub fn is_ready(block: &[u8; 32], here: Here, left: u16, group: Group) -> bool
    ensures { bytes (stand_in block.now) ≡ block.now → (progress_in block.now).left ≡ left → result ≡ ready_at (call_in block.now).chip (group_number group) (run_in here) (progress_in block.now) }
{
    match group {
        Group::Begin => end_image::is_done(block),
        Group::Abort => counts(block, here, left) & end_image::has_failed(block, true),
        Group::Ended => false,
        _ => counts(block, here, left) & end_image::is_done(block),
    }
}
