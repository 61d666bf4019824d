// Listening, receives and replies.
ghost use Rattle.call.specs.Left.{LeavesBlock, Leaves};
ghost use Rattle.ch32_i2c.specs.Response.{listen_begin, listen_step, respond_to_write_begin, respond_to_write_step, respond_to_read_begin, respond_to_read_step};

#[unsafe(no_mangle)]
pub extern "C" fn ch32_i2c_listen_begin(block: &mut [u8], chip: u8) -> u64
    ensures { LeavesBlock (listen_begin block.old chip) result block.new }
{
    ch32_i2c::response::ch32_i2c_listen_begin(block, chip)
}

#[unsafe(no_mangle)]
pub extern "C" fn ch32_i2c_listen_step(block: &mut [u8], answer: u16) -> u64
    ensures { LeavesBlock (listen_step block.old answer) result block.new }
{
    ch32_i2c::response::ch32_i2c_listen_step(block, answer)
}

#[unsafe(no_mangle)]
pub extern "C" fn ch32_i2c_respond_to_write_begin(
    block: &mut [u8],
    chip: u8,
    buffer: &mut [u8],
) -> u64
    ensures { Leaves (respond_to_write_begin block.old chip buffer.old) result block.new buffer.new }
{
    ch32_i2c::response::ch32_i2c_respond_to_write_begin(block, chip, buffer)
}

#[unsafe(no_mangle)]
pub extern "C" fn ch32_i2c_respond_to_write_step(
    block: &mut [u8],
    buffer: &mut [u8],
    answer: u16,
) -> u64
    ensures { Leaves (respond_to_write_step block.old buffer.old answer) result block.new buffer.new }
{
    ch32_i2c::response::ch32_i2c_respond_to_write_step(block, buffer, answer)
}

#[unsafe(no_mangle)]
pub extern "C" fn ch32_i2c_respond_to_read_begin(block: &mut [u8], chip: u8, reply: &[u8]) -> u64
    ensures { LeavesBlock (respond_to_read_begin block.old chip reply.now) result block.new }
{
    ch32_i2c::response::ch32_i2c_respond_to_read_begin(block, chip, reply)
}

#[unsafe(no_mangle)]
pub extern "C" fn ch32_i2c_respond_to_read_step(block: &mut [u8], reply: &[u8], answer: u16) -> u64
    ensures { LeavesBlock (respond_to_read_step block.old reply.now answer) result block.new }
{
    ch32_i2c::response::ch32_i2c_respond_to_read_step(block, reply, answer)
}
