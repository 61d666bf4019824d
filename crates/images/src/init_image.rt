// The state of `init` in a block.
ghost use Rattle.std.specs.Prelude.{◌≡◌};
ghost use Rattle.images.specs.InitImage.{stage_number, stage_of, init_fields, init_of, init_in};

use crate::numbers::{self, Entry};
use block::{Fields, fields};
use timing::init::{Stage, State};
use timing::settings::Timing;

fn stage_number(x: Stage) -> u8
    ensures { result ≡ stage_number x }
{
    x as u8
}

// (Total, as `specs/InitImage.antt` says it: `init_in` refuses the numbers that are no stage's. `Stage` is of another crate, so no `From`.)
fn stage_of(number: u8) -> Stage
    ensures { result ≡ stage_of number }
{
    match number {
        0 => Stage::DisableRead,
        1 => Stage::DisableWrite,
        2 => Stage::ResetRead,
        3 => Stage::ResetWrite,
        4 => Stage::ReleaseRead,
        5 => Stage::ReleaseWrite,
        6 => Stage::FrequencyRead,
        7 => Stage::FrequencyWrite,
        8 => Stage::RiseWrite,
        9 => Stage::ClockWrite,
        10 => Stage::EnableRead,
        11 => Stage::EnableWrite,
        _ => Stage::Ended,
    }
}

// What a block says of a state.
#[tactic(auto, unfolding(crate::specs::InitImage::init_fields))]
pub fn init_fields(s: State) -> Fields
    ensures { result ≡ init_fields s }
{
    Fields {
        entry: Entry::Init as u8,
        chip: numbers::chip_number(s.chip),
        stage: stage_number(s.stage),
        marks: numbers::flags_number(s.timing.fast, s.timing.duty, false, false),
        word: s.saved,
        divider: s.timing.divider,
        second: s.timing.rise,
        mhz: s.timing.input_mhz,
        ..Default::default()
    }
}

// The state that a block says, if it is the image of one.
#[tactic(auto, unfolding(crate::specs::InitImage::init_of))]
fn init_of(f: Fields) -> State
    ensures { result ≡ init_of f }
{
    State {
        chip: numbers::chip_of(f.chip),
        timing: Timing {
            input_mhz: f.mhz,
            rise: f.second,
            divider: f.divider,
            fast: numbers::flag_at(1, f.marks),
            duty: numbers::flag_at(2, f.marks),
        },
        stage: stage_of(f.stage),
        saved: f.word,
    }
}

// (`init_slave_in` is alike: a generic one would need a trait with a law for both conversions, longer than the two.)
#[tactic(auto, unfolding(crate::specs::InitImage::init_in))]
pub fn init_in(f: Fields) -> Option<State>
    ensures { result ≡ init_in f }
{
    let state = init_of(f);
    fields::same_fields(init_fields(state), f).then_some(state)
}
