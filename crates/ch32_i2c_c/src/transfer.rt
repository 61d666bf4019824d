// Transactions, write-reads and frames.
ghost use Rattle.call.specs.Left.{Leaves, LeavesBlock};
ghost use Rattle.ch32_i2c.specs.Transfer.{transaction_begin, transaction_step, write_read_begin, write_read_step, write_begin, write_step, read_begin, read_step};

#[unsafe(no_mangle)]
pub extern "C" fn ch32_i2c_transaction_begin(
    block: &mut [u8],
    chip: u8,
    address: u8,
    list: &[u8],
    written: &[u8],
    read: &mut [u8],
) -> u64
    ensures { Leaves (transaction_begin block.old chip address list.now written.now read.old) result block.new read.new }
{
    ch32_i2c::transfer::ch32_i2c_transaction_begin(block, chip, address, list, written, read)
}

#[unsafe(no_mangle)]
pub extern "C" fn ch32_i2c_transaction_step(
    block: &mut [u8],
    list: &[u8],
    written: &[u8],
    read: &mut [u8],
    answer: u16,
) -> u64
    ensures { Leaves (transaction_step block.old list.now written.now read.old answer) result block.new read.new }
{
    ch32_i2c::transfer::ch32_i2c_transaction_step(block, list, written, read, answer)
}

#[unsafe(no_mangle)]
pub extern "C" fn ch32_i2c_write_read_begin(
    block: &mut [u8],
    chip: u8,
    address: u8,
    written: &[u8],
    read: &mut [u8],
) -> u64
    ensures { Leaves (write_read_begin block.old chip address written.now read.old) result block.new read.new }
{
    ch32_i2c::transfer::ch32_i2c_write_read_begin(block, chip, address, written, read)
}

#[unsafe(no_mangle)]
pub extern "C" fn ch32_i2c_write_read_step(
    block: &mut [u8],
    written: &[u8],
    read: &mut [u8],
    answer: u16,
) -> u64
    ensures { Leaves (write_read_step block.old written.now read.old answer) result block.new read.new }
{
    ch32_i2c::transfer::ch32_i2c_write_read_step(block, written, read, answer)
}

#[unsafe(no_mangle)]
pub extern "C" fn ch32_i2c_write_begin(
    block: &mut [u8],
    chip: u8,
    address: u8,
    option: u8,
    written: &[u8],
) -> u64
    ensures { LeavesBlock (write_begin block.old chip address option written.now) result block.new }
{
    ch32_i2c::transfer::ch32_i2c_write_begin(block, chip, address, option, written)
}

#[unsafe(no_mangle)]
pub extern "C" fn ch32_i2c_write_step(block: &mut [u8], written: &[u8], answer: u16) -> u64
    ensures { LeavesBlock (write_step block.old written.now answer) result block.new }
{
    ch32_i2c::transfer::ch32_i2c_write_step(block, written, answer)
}

#[unsafe(no_mangle)]
pub extern "C" fn ch32_i2c_read_begin(
    block: &mut [u8],
    chip: u8,
    address: u8,
    option: u8,
    read: &mut [u8],
) -> u64
    ensures { Leaves (read_begin block.old chip address option read.old) result block.new read.new }
{
    ch32_i2c::transfer::ch32_i2c_read_begin(block, chip, address, option, read)
}

#[unsafe(no_mangle)]
pub extern "C" fn ch32_i2c_read_step(block: &mut [u8], read: &mut [u8], answer: u16) -> u64
    ensures { Leaves (read_step block.old read.old answer) result block.new read.new }
{
    ch32_i2c::transfer::ch32_i2c_read_step(block, read, answer)
}
