// Which blocks hold a transfer.
ghost use Rattle.std.specs.Prelude.{◌≡◌};
ghost use Rattle.block.specs.Bytes32.{fields_of};
ghost use Rattle.images.specs.MasterImage.{unused_empty};
ghost use Rattle.master_call.specs.CallStep.{is_call_of};

use block::{Block, at};
use images::{end_image, master_image, numbers};

// The numbers that no master call has a use for are 0.
#[tactic(auto, unfolding(images::specs::MasterImage::unused_empty, block::specs::Bytes32::fields_of))]
fn unused_empty(block: &[u8; 32]) -> bool
    ensures { result ≡ unused_empty (fields_of block.now) }
{
    (block.long(at::COUNT) == 0) & ((block[at::SECOND] == 0) & (block[at::MHZ] == 0))
}

// The numbers beside those of the stage are those of a call of this entry. (By its number: a block may hold any.)
#[tactic(auto, unfolding(crate::specs::CallStep::is_call_of, images::specs::MasterImage::is_call, block::specs::Bytes32::fields_of))]
pub fn is_call_of(block: &[u8; 32], entry: u8) -> bool
    ensures { result ≡ is_call_of entry block.now }
{
    (block[at::ENTRY] == entry)
        & ((master_image::is_kind(entry, block[at::OPTION])
            & (numbers::is_chip(block[at::CHIP])
                & (numbers::is_flag(block[at::MARKS]) & unused_empty(block))))
            & end_image::is_ending(block))
}
