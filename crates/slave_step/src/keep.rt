// Where a byte is to be kept.
ghost use Rattle.std.specs.Prelude.{◌≡◌, ℕ};
ghost use Rattle.registers.specs.declared.chip.Chip.{Chip};
ghost use Rattle.slave.specs.declared.state.Kind.{Kind};
ghost use Rattle.slave.specs.declared.state.Progress.{Progress};
ghost use Rattle.slave.specs.Machine.{owed_at};
ghost use Rattle.stage_numbers.specs.SlaveStage.{stage_of};
ghost use Rattle.asked.specs.Asked.{is_keep};

use crate::stage;

// Whether the access that is owed at these numbers is a byte to keep, with so many bytes lent. Its place is the count; a byte past the
// buffer is dropped. (Numbers: a block may hold any.)
#[tactic(auto, using(crate::proofs::StepLaws::kept_told))]
pub fn is_kept(group: u8, size: usize, count: u32) -> bool
    ensures { (chip : Chip) (x : Kind) (d : Progress) (what phase : ℕ) → count ≡ d.count → result ≡ is_keep (owed_at (record { chip = chip; kind = x; size = size }) (stage_of group what phase) d) }
{
    (group == stage::RECEIVE) & ((count as usize) < size)
}
