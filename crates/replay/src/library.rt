// The nine entries of the library by a stored call's entry.
ghost use Rattle.replay.specs.Lent.{StaysLent};

use crate::stored::{Call, Entry};
use access::{Words, ending};
use ch32_i2c::{init, init_slave, response, transfer};
use errors::rust;
use images::numbers;

// What is lent at each step.
#[derive(Drop)]
pub struct Lent<'a> {
    pub block: &'a mut [u8],
    pub list: &'a [u8],
    pub written: &'a [u8],
    pub read: &'a mut [u8],
}

// By a `match`, which is plainer than a table of functions: what each is lent differs.
pub fn begin(call: Call, lent: &mut Lent) -> u64
    ensures stays { StaysLent lent.old lent.new }
{
    match call.entry {
        Entry::Init => init::ch32_i2c_init_begin(
            lent.block,
            call.chip,
            call.input,
            call.frequency,
            call.duty,
        ),
        Entry::Transaction => transfer::ch32_i2c_transaction_begin(
            lent.block,
            call.chip,
            call.target,
            lent.list,
            lent.written,
            lent.read,
        ),
        Entry::WriteRead => transfer::ch32_i2c_write_read_begin(
            lent.block,
            call.chip,
            call.target,
            lent.written,
            lent.read,
        ),
        Entry::Write => transfer::ch32_i2c_write_begin(
            lent.block,
            call.chip,
            call.target,
            call.option,
            lent.written,
        ),
        Entry::Read => {
            transfer::ch32_i2c_read_begin(
                lent.block,
                call.chip,
                call.target,
                call.option,
                lent.read,
            )
        }
        Entry::InitSlave => init_slave::ch32_i2c_init_slave_begin(
            lent.block,
            call.ten_bit,
            call.address,
            call.has_second,
            call.second,
            call.general_call,
            call.clock_stretching,
        ),
        Entry::Listen => response::ch32_i2c_listen_begin(lent.block, call.chip),
        Entry::RespondToWrite => {
            response::ch32_i2c_respond_to_write_begin(lent.block, call.chip, lent.read)
        }
        Entry::RespondToRead => {
            response::ch32_i2c_respond_to_read_begin(lent.block, call.chip, lent.written)
        }
    }
}

// By a `match`, as above.
pub fn step(entry: Entry, lent: &mut Lent, answer: u16) -> u64
    ensures stays { StaysLent lent.old lent.new }
{
    match entry {
        Entry::Init => init::ch32_i2c_init_step(lent.block, answer),
        Entry::Transaction => transfer::ch32_i2c_transaction_step(
            lent.block,
            lent.list,
            lent.written,
            lent.read,
            answer,
        ),
        Entry::WriteRead => {
            transfer::ch32_i2c_write_read_step(lent.block, lent.written, lent.read, answer)
        }
        Entry::Write => transfer::ch32_i2c_write_step(lent.block, lent.written, answer),
        Entry::Read => transfer::ch32_i2c_read_step(lent.block, lent.read, answer),
        Entry::InitSlave => init_slave::ch32_i2c_init_slave_step(lent.block, answer),
        Entry::Listen => response::ch32_i2c_listen_step(lent.block, answer),
        Entry::RespondToWrite => {
            response::ch32_i2c_respond_to_write_step(lent.block, lent.read, answer)
        }
        Entry::RespondToRead => {
            response::ch32_i2c_respond_to_read_step(lent.block, lent.written, answer)
        }
    }
}

// What stands beside an end: the second count at 0, the flags at an error.
pub fn extra(end: u64) -> u16 {
    Words::from(ending::ending_in(end)).extra
}

fn is_master(entry: Entry) -> bool {
    matches!(
        entry,
        Entry::Transaction | Entry::WriteRead | Entry::Write | Entry::Read
    )
}

// An end of the library as the Rust's. `init` and `init_slave` have no error check. What is no end's number stays, and differs
// from every stored end.
pub fn as_the_rust(entry: Entry, chip: u8, end: u64) -> u64 {
    let ours = ending::ending_in(end);
    if entry == Entry::Init || entry == Entry::InitSlave || ending::ending_number(ours) != end {
        return end;
    }
    ending::ending_number(rust::as_the_rust(ours, numbers::chip_of(chip), is_master(entry)))
}
