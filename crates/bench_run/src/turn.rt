// Begin and step of a transaction as a C program calls them, with the returned number taken apart.
ghost use Rattle.std.specs.Prelude.{◌≡◌};
ghost use Rattle.access.specs.Numbers.{next_of};
ghost use Rattle.ch32_i2c.specs.Transfer.{transaction_begin, transaction_step};
ghost use Rattle.bench_run.specs.Lent.{StaysLent};

use access::{Next, ending};
use ch32_i2c::transfer;
use registers::Register;

// What a returned number tells. A function: neither `u64` nor `Next` is this crate's own, so no `From`.
fn next_of(number: u64) -> Next
    ensures { result ≡ next_of number }
{
    let [kind, code, low, high, ..] = number.to_le_bytes();
    let value = u16::from_le_bytes([low, high]);
    match kind {
        0 => Next::End(ending::ending_in(number)),
        1 => Next::Read(Register::from(code)),
        2 => Next::Write(Register::from(code), value),
        _ => Next::Clock,
    }
}

// What is lent at each step.
#[derive(Drop)]
pub struct Lent<'a> {
    pub block: &'a mut [u8],
    pub list: &'a [u8],
    pub written: &'a [u8],
    pub read: &'a mut [u8],
}

pub fn begin(lent: &mut Lent, chip: u8, address: u8) -> Next
    ensures value { result ≡ (transaction_begin lent.old.block.now chip address lent.old.list.now lent.old.written.now lent.old.read.now).next }
    ensures block_after { lent.new.block.now ≡ (transaction_begin lent.old.block.now chip address lent.old.list.now lent.old.written.now lent.old.read.now).block }
    ensures read_after { lent.new.read.now ≡ (transaction_begin lent.old.block.now chip address lent.old.list.now lent.old.written.now lent.old.read.now).read }
    ensures stays { StaysLent lent.old lent.new }
{
    next_of(transfer::ch32_i2c_transaction_begin(
        lent.block,
        chip,
        address,
        lent.list,
        lent.written,
        lent.read,
    ))
}

pub fn step(lent: &mut Lent, answer: u16) -> Next
    ensures value { result ≡ (transaction_step lent.old.block.now lent.old.list.now lent.old.written.now lent.old.read.now answer).next }
    ensures block_after { lent.new.block.now ≡ (transaction_step lent.old.block.now lent.old.list.now lent.old.written.now lent.old.read.now answer).block }
    ensures read_after { lent.new.read.now ≡ (transaction_step lent.old.block.now lent.old.list.now lent.old.written.now lent.old.read.now answer).read }
    ensures stays { StaysLent lent.old lent.new }
{
    next_of(transfer::ch32_i2c_transaction_step(
        lent.block,
        lent.list,
        lent.written,
        lent.read,
        answer,
    ))
}
