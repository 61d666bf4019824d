// `init_slave`.
ghost use Rattle.std.specs.Prelude.{◌≡◌};
ghost use Rattle.call.specs.Left.{LeavesBlock};
ghost use Rattle.ch32_i2c.specs.InitSlave.{taken_config, init_slave_begin, init_slave_step};

use crate::numbers::flag;
use call::edge;
use calls::init_slave::InitSlave;
use images::init_slave_image;
use slave::SlaveConfig;

// The configuration that C's numbers mean, unless one of the flags means nothing.
fn taken_config(
    ten: u8,
    address: u16,
    has: u8,
    second: u8,
    general: u8,
    stretching: u8,
) -> Option<SlaveConfig>
    ensures { result ≡ taken_config ten address has second general stretching }
{
    let ten = flag(ten)?;
    let has = flag(has)?;
    let general_call = flag(general)?;
    let clock_stretching = flag(stretching)?;
    Some(SlaveConfig {
        address: init_slave_image::address_of(ten, address),
        second_address: init_slave_image::second_of(has, second),
        general_call,
        clock_stretching,
    })
}

#[tactic(auto, using(crate::proofs::InitLeaves::init_slave_begin_at))]
pub fn ch32_i2c_init_slave_begin(
    block: &mut [u8],
    ten_bit: u8,
    address: u16,
    has_second: u8,
    second: u8,
    general_call: u8,
    clock_stretching: u8,
) -> u64
    ensures { LeavesBlock (init_slave_begin block.old ten_bit address has_second second general_call clock_stretching) result block.new }
{
    let config = taken_config(
        ten_bit,
        address,
        has_second,
        second,
        general_call,
        clock_stretching,
    );
    edge::begin(&InitSlave, config, block, &[])
}

#[tactic(auto, using(crate::proofs::InitLeaves::init_slave_step_at))]
pub fn ch32_i2c_init_slave_step(block: &mut [u8], answer: u16) -> u64
    ensures { LeavesBlock (init_slave_step block.old answer) result block.new }
{
    edge::step(&InitSlave, block, &[], answer)
}
