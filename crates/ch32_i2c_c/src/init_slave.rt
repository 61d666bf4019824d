// `init_slave`.
ghost use Rattle.call.specs.Left.{LeavesBlock};
ghost use Rattle.ch32_i2c.specs.InitSlave.{init_slave_begin, init_slave_step};

#[unsafe(no_mangle)]
pub extern "C" fn ch32_i2c_init_slave_begin(
    block: &mut [u8],
    ten_bit: u8,
    address: u16,
    has_second: u8,
    second: u8,
    general_call: u8,
    clock_stretching: u8,
) -> u64
    ensures { LeavesBlock (init_slave_begin block.old ten_bit address has_second second general_call clock_stretching) result block.new }
{
    ch32_i2c::init_slave::ch32_i2c_init_slave_begin(
        block,
        ten_bit,
        address,
        has_second,
        second,
        general_call,
        clock_stretching,
    )
}

#[unsafe(no_mangle)]
pub extern "C" fn ch32_i2c_init_slave_step(block: &mut [u8], answer: u16) -> u64
    ensures { LeavesBlock (init_slave_step block.old answer) result block.new }
{
    ch32_i2c::init_slave::ch32_i2c_init_slave_step(block, answer)
}
