// Transactions, write-reads and frames.
ghost use Rattle.std.specs.Prelude.{◌≡◌, ◌||◌, ltb};
ghost use Rattle.call.specs.Edge.{known};
ghost use Rattle.call.specs.Left.{Leaves, LeavesBlock};
ghost use Rattle.ch32_i2c.specs.Transfer.{partner_of, framed_of, transaction_begin, transaction_step, write_read_begin, write_read_step, write_begin, write_step, read_begin, read_step};

use crate::numbers;
use call::edge;
use calls::transfer::{Framed, Partner, Read, Transaction, Write, WriteRead};
use images::master_image;

// The partner that C's numbers mean, unless the chip is none.
fn partner(chip: u8, address: u8) -> Option<Partner>
    ensures { result ≡ known (ltb 3 chip) (partner_of chip address) }
{
    let chip = numbers::chip(chip)?;
    let address = address.into();
    Some(Partner { chip, address })
}

// The same of a frame, unless its option is none.
fn framed(chip: u8, address: u8, option: u8) -> Option<Framed>
    ensures { result ≡ known (ltb 3 chip || ltb 5 option) (framed_of chip address option) }
{
    let partner = partner(chip, address)?;
    let options = master_image::frame_options_of(option);
    (option <= 5).then_some(Framed { partner, options })
}

#[tactic(auto, using(crate::proofs::TransferLeaves::transaction_begun, crate::proofs::LeftLaws::nothing_read))]
pub fn ch32_i2c_transaction_begin(
    block: &mut [u8],
    chip: u8,
    address: u8,
    list: &[u8],
    written: &[u8],
    read: &mut [u8],
) -> u64
    ensures { Leaves (transaction_begin block.old chip address list.now written.now read.old) result block.new read.new }
{
    let call = Transaction {
        list,
        written: written.len(),
        room: read.len(),
    };
    edge::begin(&call, partner(chip, address), block, written)
}

#[tactic(auto, using(crate::proofs::TransferLeaves::transaction_stepped))]
pub fn ch32_i2c_transaction_step(
    block: &mut [u8],
    list: &[u8],
    written: &[u8],
    read: &mut [u8],
    answer: u16,
) -> u64
    ensures { Leaves (transaction_step block.old list.now written.now read.old answer) result block.new read.new }
{
    let call = Transaction {
        list,
        written: written.len(),
        room: read.len(),
    };
    edge::step_reading(&call, block, written, read, answer)
}

#[tactic(auto, using(crate::proofs::TransferLeaves::write_read_begun, crate::proofs::LeftLaws::nothing_read))]
pub fn ch32_i2c_write_read_begin(
    block: &mut [u8],
    chip: u8,
    address: u8,
    written: &[u8],
    read: &mut [u8],
) -> u64
    ensures { Leaves (write_read_begin block.old chip address written.now read.old) result block.new read.new }
{
    let call = WriteRead {
        written: written.len(),
        room: read.len(),
    };
    edge::begin(&call, partner(chip, address), block, written)
}

#[tactic(auto, using(crate::proofs::TransferLeaves::write_read_stepped))]
pub fn ch32_i2c_write_read_step(
    block: &mut [u8],
    written: &[u8],
    read: &mut [u8],
    answer: u16,
) -> u64
    ensures { Leaves (write_read_step block.old written.now read.old answer) result block.new read.new }
{
    let call = WriteRead {
        written: written.len(),
        room: read.len(),
    };
    edge::step_reading(&call, block, written, read, answer)
}

#[tactic(auto, using(crate::proofs::TransferLeaves::write_begun))]
pub fn ch32_i2c_write_begin(
    block: &mut [u8],
    chip: u8,
    address: u8,
    option: u8,
    written: &[u8],
) -> u64
    ensures { LeavesBlock (write_begin block.old chip address option written.now) result block.new }
{
    let call = Write {
        written: written.len(),
    };
    edge::begin(&call, framed(chip, address, option), block, written)
}

#[tactic(auto, using(crate::proofs::TransferLeaves::write_stepped))]
pub fn ch32_i2c_write_step(block: &mut [u8], written: &[u8], answer: u16) -> u64
    ensures { LeavesBlock (write_step block.old written.now answer) result block.new }
{
    let call = Write {
        written: written.len(),
    };
    edge::step(&call, block, written, answer)
}

#[tactic(auto, using(crate::proofs::TransferLeaves::read_begun, crate::proofs::LeftLaws::nothing_read))]
pub fn ch32_i2c_read_begin(
    block: &mut [u8],
    chip: u8,
    address: u8,
    option: u8,
    read: &mut [u8],
) -> u64
    ensures { Leaves (read_begin block.old chip address option read.old) result block.new read.new }
{
    let call = Read { room: read.len() };
    edge::begin(&call, framed(chip, address, option), block, &[])
}

#[tactic(auto, using(crate::proofs::TransferLeaves::read_stepped))]
pub fn ch32_i2c_read_step(block: &mut [u8], read: &mut [u8], answer: u16) -> u64
    ensures { Leaves (read_step block.old read.old answer) result block.new read.new }
{
    let call = Read { room: read.len() };
    edge::step_reading(&call, block, &[], read, answer)
}
