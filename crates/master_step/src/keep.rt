// Where a byte is to be kept.
ghost use Rattle.std.specs.Prelude.{◌≡◌, ℕ};
ghost use Rattle.master.specs.declared.call.Setting.{Setting};
ghost use Rattle.master.specs.declared.state.Progress.{Progress};
ghost use Rattle.master.specs.Machine.{owed_at};
ghost use Rattle.stage_numbers.specs.MasterStage.{stage_of};
ghost use Rattle.asked.specs.Asked.{is_keep};

use master::stage::{ReadStage, RecvStage};
use stage_numbers::Numbered;
use stage_numbers::master_stage::Group;

// Whether the access that is owed at these numbers is a byte to keep. Its place is the block's. (Numbers: a block may hold any.)
pub fn is_kept(group: u8, phase: u8) -> bool
    ensures { (g : Setting) (what : ℕ) (d : Progress) → result ≡ is_keep (owed_at g (stage_of group what phase) d) }
{
    match Group::of(group) {
        Some(Group::RecvByte) => !matches!(RecvStage::of(phase), Some(RecvStage::Status)),
        Some(Group::ReadIter) => matches!(
            ReadStage::of(phase),
            Some(ReadStage::Third | ReadStage::SecondLast | ReadStage::Last)
        ),
        _ => false,
    }
}
