// What single numbers of C mean: none, if they mean nothing.
ghost use Rattle.std.specs.Prelude.{◌≡◌, ltb};
ghost use Rattle.images.specs.Numbers.{chip_of};
ghost use Rattle.call.specs.Edge.{known};
ghost use Rattle.ch32_i2c.specs.InitSlave.{is_one};

use images::numbers;
use registers::Chip;

pub fn chip(number: u8) -> Option<Chip>
    ensures { result ≡ known (ltb 3 number) (chip_of number) }
{
    (number <= 3).then_some(numbers::chip_of(number))
}

pub fn flag(number: u8) -> Option<bool>
    ensures { result ≡ known (ltb 1 number) (is_one number) }
{
    (number <= 1).then_some(number == 1)
}
