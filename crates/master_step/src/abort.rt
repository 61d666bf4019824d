// After an error: `abort_transfer`.
ghost use Rattle.std.specs.Prelude.{◌≡◌};
ghost use Rattle.registers.specs.declared.chip.Chip.{Chip};
ghost use Rattle.master.specs.declared.stage.Stage.TheVariants.{Ended};
ghost use Rattle.master.specs.declared.state.Progress.{Progress};
ghost use Rattle.master.specs.Machine.{to, finish_transfer, only_frequency, abort_transfer};
ghost use Rattle.master.specs.Fits.{fits_abort};
ghost use Rattle.master_step.specs.Held.{call_in, Aborts, Aborting};

use crate::input::Input;
use crate::{go, put};
use asked::Asked;
use block::{Block, at};
use images::numbers;
use master::Stage;
use master::stage::AbortStage;
use registers::{Chip, Register, bits, fields, word};
use stage_numbers::Numbered;

// The rise time is kept with i2c_v3 alone.
fn fits_abort(chip: Chip, phase: AbortStage) -> bool
    ensures { result ≡ fits_abort chip phase }
{
    chip.i2c_v3 | !matches!(phase, AbortStage::Rise | AbortStage::PutRise)
}

// CTLR2 without its transfer bits.
fn finish_transfer(control: u16) -> u16
    ensures { result ≡ finish_transfer control }
{
    word::put_field(control, fields::TRANSFER, 0)
}

// CTLR2 with nothing but the frequency of the word.
fn only_frequency(control: u16) -> u16
    ensures { result ≡ only_frequency control }
{
    word::put_field(0, fields::FREQ, word::field_of(control, fields::FREQ))
}

// The abort is done: the call ends with the error that it met.
fn ends(block: &mut [u8; 32]) -> Asked
    ensures { Aborts block.old block.new result (λ (d : Progress). to Ended d) }
{
    let end = Asked::ended(block);
    put::to(block, Stage::Ended);
    end
}

// finish_transfer(), and then `if control.start() || control.stop()` a reset that puts FREQ, CKCFGR and RTR back,
// `else if star2.read().msl()` STOP.
#[tactic(auto, using(crate::proofs::Laws::stand_back, crate::proofs::Laws::image, crate::proofs::Laws::word_told, crate::proofs::Laws::divider_at, crate::proofs::Laws::rise_at))]
fn abort_phase(block: &mut [u8; 32], chip: Chip, phase: AbortStage, answer: u16) -> Asked
    ensures { (call_in block.old).chip ≡ chip → Aborts block.old block.new result (λ (d : Progress). abort_transfer (call_in block.old).chip phase d answer) }
{
    match phase {
        AbortStage::FinishRead => {
            let finished = finish_transfer(answer);
            go::modifies(
                block,
                AbortStage::FinishWrite,
                answer,
                Register::Ctlr2,
                finished,
            )
        }
        AbortStage::FinishWrite => {
            put::phase(block, AbortStage::Control);
            Asked::read(Register::Ctlr1)
        }
        AbortStage::Control => {
            if word::bit(answer, bits::START) | word::bit(answer, bits::STOP) {
                put::phase(block, AbortStage::Frequency);
                return Asked::read(Register::Ctlr2);
            }
            put::phase(block, AbortStage::Master);
            Asked::read(Register::Star2)
        }
        // What the reset would lose: ctlr2.read().freq(), ckcfgr.read(), and rtr.read() with i2c_v3.
        AbortStage::Frequency => {
            put::saves(block, answer);
            put::phase(block, AbortStage::Divider);
            Asked::read(Register::Ckcfgr)
        }
        AbortStage::Divider => {
            put::saves_divider(block, answer);
            if chip.i2c_v3 {
                put::phase(block, AbortStage::Rise);
                return Asked::read(Register::Rtr);
            }
            put::phase(block, AbortStage::Reset);
            Asked::write(Register::Ctlr1, word::set_bit(0, bits::SWRST))
        }
        AbortStage::Rise => {
            put::saves_rise(block, answer);
            put::phase(block, AbortStage::Reset);
            Asked::write(Register::Ctlr1, word::set_bit(0, bits::SWRST))
        }
        // ctlr1.write(set_swrst(true)), ctlr1.write(set_swrst(false))
        AbortStage::Reset => {
            put::phase(block, AbortStage::Release);
            Asked::write(Register::Ctlr1, word::clear_bit(0, bits::SWRST))
        }
        AbortStage::Release => {
            let frequency = only_frequency(block.word(at::WORD));
            put::phase(block, AbortStage::PutFrequency);
            Asked::write(Register::Ctlr2, frequency)
        }
        // ctlr2.write(set_freq(frequency)), ckcfgr.write_value(divider), rtr.write_value(rise), ctlr1.write(set_pe(true))
        AbortStage::PutFrequency => {
            let divider = block.word(at::DIVIDER);
            put::phase(block, AbortStage::PutDivider);
            Asked::write(Register::Ckcfgr, divider)
        }
        AbortStage::PutDivider => {
            if chip.i2c_v3 {
                let rise = block.word(at::RISE);
                put::phase(block, AbortStage::PutRise);
                return Asked::write(Register::Rtr, rise);
            }
            put::phase(block, AbortStage::Enable);
            Asked::write(Register::Ctlr1, word::set_bit(0, bits::PE))
        }
        AbortStage::PutRise => {
            put::phase(block, AbortStage::Enable);
            Asked::write(Register::Ctlr1, word::set_bit(0, bits::PE))
        }
        AbortStage::Enable => ends(block),
        // else if star2.read().msl() { generate_stop() }
        AbortStage::Master => {
            if word::bit(answer, bits::MSL) {
                put::phase(block, AbortStage::StopRead);
                return Asked::read(Register::Ctlr1);
            }
            ends(block)
        }
        AbortStage::StopRead => {
            let stopped = word::set_bit(answer, bits::STOP);
            go::modifies(
                block,
                AbortStage::StopWrite,
                answer,
                Register::Ctlr1,
                stopped,
            )
        }
        AbortStage::StopWrite => ends(block),
    }
}

pub fn abort_transfer(block: &mut [u8; 32], input: Input) -> Asked
    ensures { Aborting input block.old block.new result }
{
    let Some(phase) = AbortStage::of(input.phase) else {
        return Asked::refused();
    };
    let chip = numbers::chip_of(block[at::CHIP]);
    if !((input.what == 0) & fits_abort(chip, phase)) {
        return Asked::refused();
    }
    abort_phase(block, chip, phase, input.answer)
}
