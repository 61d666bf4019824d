// Begin and step of a transaction: what those of C give for the bytes of the operations. (With C's parameters, so that they are read beside them.)
ghost use Rattle.call.specs.Left.{Leaves};
ghost use Rattle.ch32_i2c.specs.Transfer.{transaction_begin, transaction_step};
ghost use Rattle.operation_bytes.specs.Encoded.{encoded};

use ch32_i2c::transfer;
use operation_bytes::slice;
use operations::Operation;

#[tactic(auto, using(crate::proofs::ManyLaws::begin_first))]
pub fn begin(
    block: &mut [u8],
    chip: u8,
    address: u8,
    operations: &[Operation],
    written: &[u8],
    read: &mut [u8],
) -> u64
    ensures { Leaves (transaction_begin block.old chip address (encoded operations.now) written.now read.old) result block.new read.new }
{
    let list = slice::encode(operations);
    transfer::ch32_i2c_transaction_begin(block, chip, address, list.as_slice(), written, read)
}

#[tactic(auto, using(crate::proofs::ManyLaws::step_first))]
pub fn step(
    block: &mut [u8],
    operations: &[Operation],
    written: &[u8],
    read: &mut [u8],
    answer: u16,
) -> u64
    ensures { Leaves (transaction_step block.old (encoded operations.now) written.now read.old answer) result block.new read.new }
{
    let list = slice::encode(operations);
    transfer::ch32_i2c_transaction_step(block, list.as_slice(), written, read, answer)
}
