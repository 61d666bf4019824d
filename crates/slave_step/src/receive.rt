// A byte that a master writes.
ghost use Rattle.std.specs.Prelude.{◌≡◌};
ghost use Rattle.slave_step.specs.Held.{Call, Stands, Group};

use crate::go;
use crate::here::Here;
use asked::Asked;

// let byte = regs.datar().read().datar(): it counts where there was room for it.
#[inline(always)]
#[tactic(auto, using(crate::proofs::GroupLaws::receive_decides), unfolding(block::specs::Bytes32::bytes_of, images::specs::SlaveImage::slave_fields, crate::specs::Held::block_at, crate::specs::Held::fields_at))]
pub fn received(block: &mut [u8; 32], here: Here) -> Asked
    ghost s: { Call }
    requires { Stands s here 5 block.old }
    ensures { Group 5 s here block.old block.new result }
{
    if !((here.what == 0) & ((here.phase == 0) & here.receives())) {
        return Asked::refused();
    }
    go::counts(block, here.count, here.size as u32)
}
