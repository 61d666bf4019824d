// The state of `init_slave` in a block.
ghost use Rattle.std.specs.Prelude.{◌≡◌};
ghost use Rattle.images.specs.InitSlaveImage.{init_stage_number, init_stage_of, is_ten, address_word, address_of, second_of, init_slave_fields, init_slave_of, init_slave_in};

use crate::numbers::{self, Entry};
use block::{Fields, fields};
use slave::init::{InitStage, InitState};
use slave::{SlaveAddress, SlaveConfig};

fn init_stage_number(x: InitStage) -> u8
    ensures { result ≡ init_stage_number x }
{
    x as u8
}

// (Total, and no `From`, as `stage_of` of `init_image`.)
fn init_stage_of(number: u8) -> InitStage
    ensures { result ≡ init_stage_of number }
{
    match number {
        0 => InitStage::DisableRead,
        1 => InitStage::DisableWrite,
        2 => InitStage::BufferRead,
        3 => InitStage::BufferWrite,
        4 => InitStage::Own,
        5 => InitStage::Second,
        6 => InitStage::EnableRead,
        7 => InitStage::EnableWrite,
        _ => InitStage::Ended,
    }
}

fn is_ten(address: SlaveAddress) -> bool
    ensures { result ≡ is_ten address }
{
    matches!(address, SlaveAddress::TenBit(_))
}

fn address_word(address: SlaveAddress) -> u16
    ensures { result ≡ address_word address }
{
    match address {
        SlaveAddress::SevenBit(a) | SlaveAddress::TenBit(a) => a,
    }
}

// (Of two parts of a block, and of a type of another crate, so no `From`.)
pub fn address_of(ten: bool, word: u16) -> SlaveAddress
    ensures { result ≡ address_of ten word }
{
    if ten {
        SlaveAddress::TenBit(word)
    } else {
        SlaveAddress::SevenBit(word)
    }
}

pub fn second_of(has: bool, byte: u8) -> Option<u8>
    ensures { result ≡ second_of has byte }
{
    has.then_some(byte)
}

// What a block says of a state.
#[tactic(auto, unfolding(crate::specs::InitSlaveImage::init_slave_fields))]
pub fn init_slave_fields(s: InitState) -> Fields
    ensures { result ≡ init_slave_fields s }
{
    let SlaveConfig {
        address,
        second_address,
        general_call,
        clock_stretching,
    } = s.config;
    Fields {
        entry: Entry::InitSlave as u8,
        stage: init_stage_number(s.stage),
        marks: numbers::flags_number(
            is_ten(address),
            second_address.is_some(),
            general_call,
            clock_stretching,
        ),
        address: address_word(address),
        word: s.saved,
        second: second_address.unwrap_or(0),
        ..Default::default()
    }
}

// The state that a block says, if it is the image of one.
#[tactic(auto, unfolding(crate::specs::InitSlaveImage::init_slave_of))]
fn init_slave_of(f: Fields) -> InitState
    ensures { result ≡ init_slave_of f }
{
    InitState {
        config: SlaveConfig {
            address: address_of(numbers::flag_at(1, f.marks), f.address),
            second_address: second_of(numbers::flag_at(2, f.marks), f.second),
            general_call: numbers::flag_at(4, f.marks),
            clock_stretching: numbers::flag_at(8, f.marks),
        },
        stage: init_stage_of(f.stage),
        saved: f.word,
    }
}

// (As `init_in`: a generic one would need a trait with a law for both conversions.)
#[tactic(auto, unfolding(crate::specs::InitSlaveImage::init_slave_in))]
pub fn init_slave_in(f: Fields) -> Option<InitState>
    ensures { result ≡ init_slave_in f }
{
    let state = init_slave_of(f);
    fields::same_fields(init_slave_fields(state), f).then_some(state)
}
