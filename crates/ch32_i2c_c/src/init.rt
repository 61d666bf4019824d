// `init`.
ghost use Rattle.call.specs.Left.{LeavesBlock};
ghost use Rattle.ch32_i2c.specs.Init.{init_begin, init_step};

#[unsafe(no_mangle)]
pub extern "C" fn ch32_i2c_init_begin(
    block: &mut [u8],
    chip: u8,
    input: u32,
    frequency: u32,
    duty: u8,
) -> u64
    ensures { LeavesBlock (init_begin block.old chip input frequency duty) result block.new }
{
    ch32_i2c::init::ch32_i2c_init_begin(block, chip, input, frequency, duty)
}

#[unsafe(no_mangle)]
pub extern "C" fn ch32_i2c_init_step(block: &mut [u8], answer: u16) -> u64
    ensures { LeavesBlock (init_step block.old answer) result block.new }
{
    ch32_i2c::init::ch32_i2c_init_step(block, answer)
}
