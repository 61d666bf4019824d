// Ways that several groups go: an error, a register changed, an end. None of these knows whose block it is. (The master's of the same names are over
// its own stages and say what the bytes mean: one function would be a trait for two callers.)
ghost use Rattle.std.specs.Prelude.{◌≡◌, ◌+◌, cond, ltb, Err};
ghost use Rattle.registers.specs.declared.register.Register.TheVariants.{Ctlr2, Star1};
ghost use Rattle.access.specs.Endings.{Ending, returned_both};
ghost use Rattle.access.specs.declared.need.Need.TheVariants as need;
ghost use Rattle.block.specs.Bytes32.{at_phase, at_stage, with_word, with_long};
ghost use Rattle.images.specs.EndImage.{KeepsEnd, with_ending};
ghost use Rattle.stage_numbers.specs.SlaveStage.{stage_group, stage_what, stage_phase};

use access::{Failure, ending};
use asked::Asked;
use block::{Block, at};
use images::end_image;
use registers::Register;
use slave::Stage;
use slave::stage::AbortStage;
use stage_numbers::{Numbered, slave_stage};

// On to another stage.
#[inline(always)]
pub fn to(block: &mut [u8; 32], stage: Stage)
    ensures { block.new ≡ at_stage (stage_group stage) (stage_what stage) (stage_phase stage) block.old }
{
    let (group, what, phase) = slave_stage::numbers_of(stage);
    block.to(group, what, phase);
}

// An error: the abort begins. (The Rust's `OnDrop::new(Self::abort_slave_transfer)`.)
pub fn fails(block: &mut [u8; 32], failure: Failure) -> Asked
    ensures block { block.new ≡ at_stage 9 0 0 (with_ending (Err failure) block.old) }
    ensures asks { result ≡ need.Read Ctlr2 }
{
    end_image::put(block, Err(failure));
    to(block, Stage::Abort(AbortStage::DisableRead));
    Asked::read(Register::Ctlr2)
}

// A register is changed: the word read is saved, and in this phase of the stage the new one is written.
pub fn modifies<P: Numbered>(
    block: &mut [u8; 32],
    phase: P,
    old: u16,
    register: Register,
    new: u16,
) -> Asked
    ensures block { block.new ≡ at_phase (P.number_of phase) (with_word block.old 16 old) }
    ensures asks { result ≡ need.Write register new }
{
    block.put_word(at::WORD, old);
    block.phase(phase.number());
    Asked::write(register, new)
}

// The call ends and returns this value, and a second one.
pub fn returns(block: &mut [u8; 32], value: u16, second: u16) -> Asked
    ensures block { block.new ≡ at_stage 10 0 0 (with_ending (returned_both value second) block.old) }
    ensures asks { result ≡ need.End (returned_both value second) }
{
    let end = ending::returned_both(value, second);
    end_image::put(block, end);
    to(block, Stage::Ended);
    Asked::end(end)
}

// The call ends, and how is in the block.
pub fn ends(block: &mut [u8; 32]) -> Asked
    ghost e: { Ending }
    requires { KeepsEnd block.old e }
    ensures block { block.new ≡ at_stage 10 0 0 block.old }
    ensures asks { result ≡ need.End e }
{
    let end = Asked::ended(block);
    to(block, Stage::Ended);
    end
}

// A byte has come or gone: it counts below the limit, and the loop goes on.
pub fn counts(block: &mut [u8; 32], count: u32, limit: u32) -> Asked
    ensures block { block.new ≡ at_stage 3 0 0 (cond (ltb count limit) (with_long block.old 24 (count + 1)) block.old) }
    ensures asks { result ≡ need.Read Star1 }
{
    if count < limit {
        block.put_long(at::COUNT, count + 1);
        to(block, Stage::Poll);
        return Asked::read(Register::Star1);
    }
    to(block, Stage::Poll);
    Asked::read(Register::Star1)
}
