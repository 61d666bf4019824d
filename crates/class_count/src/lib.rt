// How many of the 65,536 status words lead to each error class.
#![tactic(auto)]

ghost use Rattle.std.specs.Prelude.{◌≡◌, cond, ◌/◌, ◌≤◌};
ghost use Rattle.class_count.specs.ClassWords.{words_of};

use registers::Chip;

// The words that a flag leaves of those that the flags before it left: half, if it is one of the chip's.
fn left(words: u32, has: bool) -> u32
    ensures value { result ≡ cond has (words / 2) words }
    ensures upper_bound { result ≤ words }
{
    if has { words / 2 } else { words }
}

// By a class's number, 0 for none, for a master (`nack`) or a slave. A class has what its flag takes; any other number has 0.
// A number and not an enum, which would ask more of callers: each number has an answer.
pub fn words_of(class: u8, chip: Chip, nack: bool) -> u32
    ensures { result ≡ words_of chip nack class }
{
    let arlo = left(65536, true);
    let berr = left(arlo, chip.ch32v4);
    let timeout = left(berr, chip.i2c_v3);
    let pecerr = left(timeout, true);
    let ovr = left(pecerr, true);
    let af = left(ovr, nack);
    match class {
        0 => af,
        1 => arlo - berr,
        2 => 65536 - arlo,
        3 => ovr - af,
        4 => berr - timeout,
        5 => timeout - pecerr,
        6 => pecerr - ovr,
        _ => 0,
    }
}
