// Where a slave call begins.
ghost use Rattle.std.specs.Prelude.{◌≡◌, ℕ};
ghost use Rattle.images.specs.Numbers.{chip_of};
ghost use Rattle.slave.specs.Machine.{start};
ghost use Rattle.slave_step.specs.Held.{begun_fields, first_fields, Moves};

use crate::stage;
use asked::Asked;
use block::Fields;
use images::numbers::{self, Entry};
use registers::Register;
use slave::Kind;

// The numbers of a call that has done nothing yet, at the first stage of a group.
#[tactic(auto, unfolding(crate::specs::Held::begun_fields))]
fn begun_fields(entry: u8, chip: u8, group: u8) -> Fields
    ensures { result ≡ begun_fields entry chip group }
{
    Fields {
        entry,
        chip: numbers::chip_number(numbers::chip_of(chip)),
        stage: group,
        ..Fields::default()
    }
}

// Listening begins with `clear_stopf`, a response with its loop.
#[tactic(auto, using(crate::proofs::BeginLaws::listen_first, crate::proofs::BeginLaws::receive_first, crate::proofs::BeginLaws::reply_first))]
fn first_fields(kind: Kind, chip: u8) -> Fields
    ensures { result ≡ first_fields kind chip }
{
    match kind {
        Kind::Listen => begun_fields(Entry::Listen as u8, chip, stage::CLEAR_STOPF),
        Kind::RespondToWrite => begun_fields(Entry::RespondToWrite as u8, chip, stage::POLL),
        Kind::RespondToRead => begun_fields(Entry::RespondToRead as u8, chip, stage::POLL),
    }
}

// Both read STAR1 first.
#[tactic(auto, using(crate::proofs::BeginLaws::first_owed), unfolding(crate::specs::Held::first_fields))]
pub fn begin(block: &mut [u8; 32], kind: Kind, chip: u8) -> Asked
    ensures { (size : ℕ) → Moves (record { chip = chip_of chip; kind = kind; size = size }) (start kind) block.new result }
{
    *block = first_fields(kind, chip).into();
    Asked::read(Register::Star1)
}
