// `init_slave`.
ghost use Rattle.std.specs.Prelude.{◌≡◌};
ghost use Rattle.calls.specs.InitSlave.{fitting, init_slave_call};
ghost use Rattle.calls.specs.Laws.{init_slave_laws};

use access::{Error, Need};
use asked::Asked;
use call::by_state::{self, States};
use call::{Call, OnBlock};
use images::init_slave_image;
use slave::SlaveConfig;
use slave::init::{InitStage, InitState};
use slave_driver::{config, init};

#[derive(Clone, Copy)]
pub struct InitSlave;

impl OnBlock for InitSlave {
    type Args = SlaveConfig;

    type State = InitState;

    type Store = [u8; 32];

    ghost on = { λ c. init_slave_call };

    ghost laws = { λ c. init_slave_laws };
}

impl States for InitSlave {
    fn first(&self, config: SlaveConfig) -> Result<InitState, Error> {
        config::validate(config)?;
        Ok(InitState {
            config,
            stage: InitStage::DisableRead,
            saved: 0,
        })
    }

    fn owed(&self, state: InitState) -> Need {
        init::owed(state)
    }

    fn advance(&self, state: InitState, answer: u16) -> InitState {
        init::advance(state, answer)
    }

    fn found(&self, block: &[u8; 32]) -> Option<InitState> {
        fitting(init_slave_image::init_slave_in(block.into()))
    }

    fn put(&self, state: InitState, block: &mut [u8; 32]) {
        *block = init_slave_image::init_slave_fields(state).into();
    }
}

impl Call for InitSlave {
    fn begin(&self, config: SlaveConfig, block: &mut [u8; 32]) -> Result<Asked, Error> {
        by_state::begin(self, config, block)
    }

    fn step(&self, block: &mut [u8; 32], answer: u16) -> Asked {
        by_state::step(self, block, answer)
    }
}

// A state whose configuration begin would refuse is none.
fn fitting(found: Option<InitState>) -> Option<InitState>
    ensures { result ≡ fitting found }
{
    let state = found?;
    config::validate(state.config).ok()?;
    Some(state)
}
