// Where interrupts are to be held off: in which accesses the Rust has `critical_section::with` around it.
ghost use Rattle.std.specs.Prelude.{◌≡◌, ◌&&◌, eqb};
ghost use Rattle.stage_numbers.specs.MasterStage.{address_stage_number, address_stage_of, read_stage_number, read_stage_of, stop_for_number, stop_for_of, stage_of, is_stage};
ghost use Rattle.ch32_i2c.specs.Critical.{in_address_section, in_read_section, in_stop_section, in_section, critical};

use block::at;
use images::{end_image, numbers};
use master::stage::{AddressStage, Half, ReadStage, StopFor};
use master_call::held;
use stage_numbers::Numbered;
use stage_numbers::master_stage::Group;

// A read's own accesses: ACK off and START behind one byte; START before the last two bytes, and these.
fn in_read_section(phase: u8) -> bool
    ensures { result ≡ eqb (read_stage_number (read_stage_of phase)) phase && in_read_section (read_stage_of phase) }
{
    match ReadStage::of(phase) {
        Some(ReadStage::AckRead | ReadStage::AckWrite) => true,
        Some(ReadStage::StartRead | ReadStage::StartWrite) => true,
        Some(ReadStage::AgainRead | ReadStage::AgainWrite) => true,
        Some(ReadStage::SecondLast | ReadStage::Last) => true,
        _ => false,
    }
}

fn in_address_section(phase: u8) -> bool
    ensures { result ≡ eqb (address_stage_number (address_stage_of phase)) phase && in_address_section (address_stage_of phase) }
{
    matches!(AddressStage::of(phase), Some(AddressStage::Cleared))
}

fn in_stop_section(what: u8) -> bool
    ensures { result ≡ eqb (stop_for_number (stop_for_of what)) what && in_stop_section (stop_for_of what) }
{
    matches!(StopFor::of(what), Some(StopFor::One | StopFor::Two))
}

// Whether the three numbers are a stage's, and its access lies in a section of a read.
fn in_section(group: u8, what: u8, phase: u8) -> bool
    ensures { result ≡ is_stage group what phase && in_section (stage_of group what phase) }
{
    match Group::of(group) {
        Some(Group::Address) => (what == 0) & in_address_section(phase),
        Some(Group::ReadIter) => (what == 0) & in_read_section(phase),
        Some(Group::GenerateStop) => in_stop_section(what) & Half::of(phase).is_some(),
        _ => false,
    }
}

// 1 if the access that a block owes lies in such a section, else 0. Most accesses do not, which the stage tells at once.
#[tactic(auto, using(crate::proofs::CriticalLaws::critical_told))]
fn is_critical(block: &[u8; 32]) -> u64
    ensures { result ≡ critical block.now }
{
    let reading = numbers::flag_at(1, block[at::MARKS]);
    let section = in_section(block[at::GROUP], block[at::WHAT], block[at::PHASE]);
    u64::from(
        reading
            && section
            && held::is_call_of(block, block[at::ENTRY])
            && end_image::is_done(block),
    )
}

#[tactic(auto, using(crate::proofs::CriticalLaws::no_block))]
pub fn ch32_i2c_is_critical(block: &[u8]) -> u64
    ensures { result ≡ critical block.now }
{
    block.as_array::<32>().map_or(0, is_critical)
}
