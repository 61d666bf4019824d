// `init`.
ghost use Rattle.std.specs.Prelude.{◌≡◌, ltb};
ghost use Rattle.call.specs.Edge.{known};
ghost use Rattle.call.specs.Left.{LeavesBlock};
ghost use Rattle.ch32_i2c.specs.Init.{duty_of, wanted_of, init_begin, init_step};

use crate::numbers;
use call::edge;
use calls::init::{Init, Wanted};
use timing::settings::Duty;

fn duty_of(number: u8) -> Option<Duty>
    ensures { result ≡ known (ltb 1 number) (duty_of number) }
{
    match number {
        0 => Some(Duty::Duty2_1),
        1 => Some(Duty::Duty16_9),
        _ => None,
    }
}

// What C's numbers ask for, unless one is none of `init`'s.
fn wanted(chip: u8, input: u32, frequency: u32, duty: u8) -> Option<Wanted>
    ensures { result ≡ wanted_of chip input frequency duty }
{
    let chip = numbers::chip(chip)?;
    let duty = duty_of(duty)?;
    Some(Wanted {
        input,
        frequency,
        duty,
        chip,
    })
}

#[tactic(auto, using(crate::proofs::InitLeaves::init_begin_at))]
pub fn ch32_i2c_init_begin(block: &mut [u8], chip: u8, input: u32, frequency: u32, duty: u8) -> u64
    ensures { LeavesBlock (init_begin block.old chip input frequency duty) result block.new }
{
    edge::begin(&Init, wanted(chip, input, frequency, duty), block, &[])
}

#[tactic(auto, using(crate::proofs::InitLeaves::init_step_at))]
pub fn ch32_i2c_init_step(block: &mut [u8], answer: u16) -> u64
    ensures { LeavesBlock (init_step block.old answer) result block.new }
{
    edge::step(&Init, block, &[], answer)
}
