// `init`.
ghost use Rattle.std.specs.Prelude.{◌≡◌, cond};
ghost use Rattle.calls.specs.Init.{in_range, fitting, init_call};
ghost use Rattle.calls.specs.Laws.{init_laws};

use access::{Error, Need};
use asked::Asked;
use call::by_state::{self, States};
use call::{Call, OnBlock};
use images::init_image;
use registers::Chip;
use timing::init::{self, Stage, State};
use timing::settings::{Duty, Timing};

// What `init` is asked for.
#[derive(Clone, Copy)]
pub struct Wanted {
    pub input: u32,
    pub frequency: u32,
    pub duty: Duty,
    pub chip: Chip,
}

#[derive(Clone, Copy)]
pub struct Init;

impl OnBlock for Init {
    type Args = Wanted;

    type State = State;

    type Store = [u8; 32];

    ghost on = { λ c. init_call };

    ghost laws = { λ c. init_laws };
}

impl States for Init {
    fn first(&self, wanted: Wanted) -> Result<State, Error> {
        let Wanted {
            input,
            frequency,
            duty,
            chip,
        } = wanted;
        let timing = timing::timing::timing(input, frequency, duty, chip)?;
        Ok(State {
            chip,
            timing,
            stage: Stage::DisableRead,
            saved: 0,
        })
    }

    fn owed(&self, state: State) -> Need {
        init::owed(state)
    }

    fn advance(&self, state: State, answer: u16) -> State {
        init::advance(state, answer)
    }

    fn found(&self, block: &[u8; 32]) -> Option<State> {
        fitting(init_image::init_in(block.into()))
    }

    fn put(&self, state: State, block: &mut [u8; 32]) {
        *block = init_image::init_fields(state).into();
    }
}

impl Call for Init {
    fn begin(&self, wanted: Wanted, block: &mut [u8; 32]) -> Result<Asked, Error> {
        by_state::begin(self, wanted, block)
    }

    fn step(&self, block: &mut [u8; 32], answer: u16) -> Asked {
        by_state::step(self, block, answer)
    }
}

fn floor(fast: bool) -> u16
    ensures { result ≡ cond fast 1 4 }
{
    if fast { 1 } else { 4 }
}

// A divider that begin can have found: 4, or fast 1, to 4095.
fn in_range(timing: Timing) -> bool
    ensures { result ≡ in_range timing }
{
    (floor(timing.fast) <= timing.divider) & (timing.divider <= 4095)
}

// A state with another divider is none.
fn fitting(found: Option<State>) -> Option<State>
    ensures { result ≡ fitting found }
{
    found.filter(|state| in_range(state.timing))
}
