// `init_slave`, access by access: which access a state owes, and where its answer leads.
ghost use Rattle.std.specs.Prelude.{◌≡◌};
ghost use Rattle.slave.specs.Init.{own_word_of, second_word_of, enable_word, to, saving, owed, advance};

use access::Need;
use registers::{Register, addresses, bits, word};
use slave::init::{InitStage, InitState};
use slave::{SlaveAddress, SlaveConfig};

// OADDR1's word.
fn own_word(own: SlaveAddress) -> u16
    ensures { result ≡ own_word_of own }
{
    match own {
        SlaveAddress::SevenBit(a) => addresses::own_seven(a),
        SlaveAddress::TenBit(a) => addresses::own_ten(a),
    }
}

// OADDR2's word.
fn second_word(second: Option<u8>) -> u16
    ensures { result ≡ second_word_of second }
{
    second.map_or(0, |a| addresses::second_address(a as u16))
}

// The last word of CTLR1.
fn enable_word(config: SlaveConfig, control: u16) -> u16
    ensures { result ≡ enable_word config control }
{
    let general = word::put_bit(control, bits::ENGC, config.general_call);
    let stretched = word::put_bit(general, bits::NOSTRETCH, !config.clock_stretching);
    word::set_bit(word::set_bit(stretched, bits::ACK), bits::PE)
}

// The state at another stage. (`init` has the same two: a generic one would be a trait that sets the fields, longer than both.)
fn to(state: InitState, stage: InitStage) -> InitState
    ensures { result ≡ to stage state }
{
    InitState { stage, ..state }
}

// The state at another stage, with the word that was read.
fn saving(state: InitState, stage: InitStage, word: u16) -> InitState
    ensures { result ≡ saving stage word state }
{
    InitState {
        stage,
        saved: word,
        ..state
    }
}

// What a state needs.
#[tactic(auto, unfolding(slave::specs::Init::owed))]
pub fn owed(state: InitState) -> Need
    ensures { result ≡ owed state }
{
    match state.stage {
        InitStage::DisableRead => Need::Read(Register::Ctlr1),
        InitStage::DisableWrite => {
            Need::Write(Register::Ctlr1, word::clear_bit(state.saved, bits::PE))
        }
        InitStage::BufferRead => Need::Read(Register::Ctlr2),
        InitStage::BufferWrite => {
            Need::Write(Register::Ctlr2, word::clear_bit(state.saved, bits::ITBUFEN))
        }
        InitStage::Own => Need::Write(Register::Oaddr1, own_word(state.config.address)),
        InitStage::Second => Need::Write(
            Register::Oaddr2,
            second_word(state.config.second_address),
        ),
        InitStage::EnableRead => Need::Read(Register::Ctlr1),
        InitStage::EnableWrite => {
            Need::Write(Register::Ctlr1, enable_word(state.config, state.saved))
        }
        InitStage::Ended => Need::End(access::ending::done()),
    }
}

// Where an answer leads.
#[tactic(auto, unfolding(slave::specs::Init::advance))]
pub fn advance(state: InitState, answer: u16) -> InitState
    ensures { result ≡ advance state answer }
{
    match state.stage {
        InitStage::DisableRead => saving(state, InitStage::DisableWrite, answer),
        InitStage::DisableWrite => to(state, InitStage::BufferRead),
        InitStage::BufferRead => saving(state, InitStage::BufferWrite, answer),
        InitStage::BufferWrite => to(state, InitStage::Own),
        InitStage::Own => to(state, InitStage::Second),
        InitStage::Second => to(state, InitStage::EnableRead),
        InitStage::EnableRead => saving(state, InitStage::EnableWrite, answer),
        InitStage::EnableWrite => to(state, InitStage::Ended),
        InitStage::Ended => to(state, InitStage::Ended),
    }
}
