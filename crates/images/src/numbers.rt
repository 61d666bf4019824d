// Numbers that the blocks of several calls share: the entry, the chip, and flags.
ghost use Rattle.std.specs.Prelude.{◌≡◌, ◌≤◌, ◌<◌};
ghost use Rattle.images.specs.Numbers.{flag_number, flags_number, flag_at, is_flag, chip_number, chip_of, is_chip};

use registers::Chip;

// The entries, in the order of the C header.
#[derive(Clone, Copy)]
pub enum Entry {
    Init = 1,
    Transaction = 2,
    WriteRead = 3,
    Write = 4,
    Read = 5,
    InitSlave = 6,
    Listen = 7,
    RespondToWrite = 8,
    RespondToRead = 9,
}

pub fn flag_number(b: bool) -> u8
    ensures value { result ≡ flag_number b }
    ensures upper_bound { result ≤ 1 }
{
    u8::from(b)
}

// Four flags in a number.
pub fn flags_number(a: bool, b: bool, c: bool, d: bool) -> u8
    ensures { result ≡ flags_number a b c d }
{
    flag_number(a) + flag_number(b) * 2 + flag_number(c) * 4 + flag_number(d) * 8
}

// The flag that counts 1, 2, 4 or 8 in a number.
pub fn flag_at(weight: u8, number: u8) -> bool
    requires { 0 < weight }
    ensures { result ≡ flag_at weight number }
{
    number / weight % 2 == 1
}

// Whether a number is that of a flag.
#[tactic(auto, unfolding(crate::specs::Numbers::is_flag))]
pub fn is_flag(number: u8) -> bool
    ensures { result ≡ is_flag number }
{
    number < 2
}

// (`Chip` is of another crate, so neither this nor `chip_of` can be a `From`.)
pub fn chip_number(chip: Chip) -> u8
    ensures { result ≡ chip_number chip }
{
    flags_number(chip.i2c_v3, chip.ch32v4, false, false)
}

pub fn chip_of(number: u8) -> Chip
    ensures { result ≡ chip_of number }
{
    Chip {
        i2c_v3: flag_at(1, number),
        ch32v4: flag_at(2, number),
    }
}

#[tactic(auto, unfolding(crate::specs::Numbers::is_chip))]
pub fn is_chip(number: u8) -> bool
    ensures { result ≡ is_chip number }
{
    number < 4
}
