// ctlr1.modify(stop)
#![tactic(auto, using(crate::proofs::Laws::stand_back, crate::proofs::Laws::image))]

ghost use Rattle.std.specs.Prelude.{◌≡◌};
ghost use Rattle.stage_numbers.specs.MasterStage.{stop_for_number};
ghost use Rattle.master.specs.declared.call.Setting.{Setting};
ghost use Rattle.master.specs.declared.state.Progress.{Progress};
ghost use Rattle.operations.specs.declared.search.Run.{Run};
ghost use Rattle.master.specs.Machine.{stopped, generate_stop};
ghost use Rattle.master_step.specs.Going.{fits_stop_in};
ghost use Rattle.master_step.specs.Held.{Goes, Within, Group};

use crate::here::Here;
use crate::input::Input;
use crate::{go, put};
use asked::Asked;
use master::Stage;
use master::stage::{Fall, FallStage, Half, ReadStage, StopFor};
use registers::{Register, bits, word};
use stage_numbers::Numbered;

fn fits_stop(here: Here, left: u16, what: StopFor) -> bool
    ensures { result ≡ fits_stop_in here left what }
{
    match what {
        StopFor::Write => !here.reading & here.closing(left),
        StopFor::One => here.single(left) & here.stops,
        StopFor::Two => here.last_ones(left, 2) & here.stops,
    }
}

// STOP is asked.
fn stopped(block: &mut [u8; 32], here: Here, left: u16, what: StopFor) -> Asked
    ensures { Goes here left block.old block.new result (λ (g : Setting) (run : Run) (d : Progress). stopped g run what d) }
{
    match what {
        StopFor::Write => {
            put::to(block, Stage::WaitStop(Fall::End, FallStage::Control));
            Asked::read(Register::Ctlr1)
        }
        StopFor::One => go::read_bytes(block, here, left),
        StopFor::Two => go::keeps(block, Stage::ReadIter(ReadStage::SecondLast)),
    }
}

fn stop_phase(block: &mut [u8; 32], here: Here, what: StopFor, half: Half, input: Input) -> Asked
    ensures { Within 8 (stop_for_number what) here input.left block.old block.new result (λ (g : Setting) (run : Run) (d : Progress). generate_stop g run half what d input.answer) }
{
    match half {
        Half::Read => go::modifies(
            block,
            Half::Write,
            input.answer,
            Register::Ctlr1,
            word::set_bit(input.answer, bits::STOP),
        ),
        Half::Write => stopped(block, here, input.left, what),
    }
}

pub fn generate_stop(block: &mut [u8; 32], here: Here, input: Input) -> Asked
    ensures { Group 8 here input block.old block.new result }
{
    let Some(what) = StopFor::of(input.what) else {
        return Asked::refused();
    };
    let Some(half) = Half::of(input.phase) else {
        return Asked::refused();
    };
    if !fits_stop(here, input.left, what) {
        return Asked::refused();
    }
    stop_phase(block, here, what, half, input)
}
