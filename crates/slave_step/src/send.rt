// A byte that a master reads.
ghost use Rattle.std.specs.Prelude.{◌≡◌};
ghost use Rattle.slave_step.specs.Held.{Call, Stands, Group};

use crate::go;
use crate::here::Here;
use asked::Asked;

// regs.datar().write(|reg| reg.set_datar(..)): the count stops at one more than the data has.
#[inline(always)]
#[tactic(auto, using(crate::proofs::GroupLaws::send_decides, crate::proofs::MoveLaws::within, crate::proofs::MoveLaws::beyond), unfolding(block::specs::Bytes32::bytes_of, images::specs::SlaveImage::slave_fields, crate::specs::Held::block_at, crate::specs::Held::fields_at))]
pub fn sent(block: &mut [u8; 32], here: Here) -> Asked
    ghost s: { Call }
    requires { Stands s here 6 block.old }
    ensures { Group 6 s here block.old block.new result }
{
    if !((here.what == 0) & ((here.phase == 0) & here.replies())) {
        return Asked::refused();
    }
    go::counts(block, here.count, here.size as u32 + 1)
}
