// The whole test of a block beside its stage, its count and its ending: it is one of this entry's calls.
ghost use Rattle.std.specs.Prelude.{◌≡◌, ◌&&◌, eqb};
ghost use Rattle.block.specs.Bytes32.{fields_of};
ghost use Rattle.images.specs.SlaveImage.{is_call, unused_empty};

use block::{Block, at};
use images::numbers::Entry;

// Every number that a slave call has no use for is 0.
#[tactic(auto, unfolding(images::specs::SlaveImage::unused_empty, block::specs::Bytes32::fields_of))]
fn unused_empty(block: &[u8; 32]) -> bool
    ensures { result ≡ unused_empty (fields_of block.now) }
{
    ((block.word(at::RUN) == 0) & ((block.word(at::LEFT) == 0) & (block.word(at::PLACE) == 0)))
        & (((block.word(at::DIVIDER) == 0) & (block.word(at::RISE) == 0))
            & (((block[at::MARKS] == 0) & (block.word(at::ADDRESS) == 0))
                & ((block[at::SECOND] == 0) & (block[at::MHZ] == 0))))
}

// Byte 0 is the entry, one of the slave's; byte 1 a chip. (Numbers, since a block may hold any; `&` for `&&` here and in other tests: no branches.)
#[tactic(auto, using(crate::proofs::StepLaws::call_by_entry))]
pub fn is_call(block: &[u8; 32], entry: u8) -> bool
    ensures { result ≡ (eqb (fields_of block.now).entry entry && is_call (fields_of block.now)) }
{
    (block[at::ENTRY] == entry)
        & (((((Entry::InitSlave as u8) < entry) & (entry < 10)) & (block[at::OPTION] == 0))
            & ((block[at::CHIP] < 4) & unused_empty(block)))
}
