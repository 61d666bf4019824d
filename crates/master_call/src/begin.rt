// Where a transfer begins.
ghost use Rattle.std.specs.Prelude.{◌≡◌};
ghost use Rattle.operations.specs.Operations.{is_read};
ghost use Rattle.master.specs.Machine.{fresh, start_with};
ghost use Rattle.master.specs.Calls.{misshapen, setting_of};
ghost use Rattle.stage_numbers.specs.MasterGroup.{group_number};
ghost use Rattle.master_step.specs.Going.{here_in};
ghost use Rattle.master_step.specs.Held.{fields_at, Moves};
ghost use Rattle.master_call.specs.CallBegin.{CallBegins};

use crate::here;
use access::Error;
use asked::Asked;
use block::Fields;
use images::{master_image, numbers};
use master::{Call, Kind};
use master_lent::lent;
use master_step::{Here, begun, write_bytes};
use operations::{Run, operation, shape};
use registers::Register;
use stage_numbers::Numbered;
use stage_numbers::master_stage::Group;

// The numbers of a call that has done nothing yet, at the first stage of a group.
#[tactic(auto, using(crate::proofs::BeginLaws::begun_is))]
fn begun_fields(call: Call, group: Group) -> Fields
    ensures { result ≡ fields_at call fresh (group_number group) 0 0 }
{
    Fields {
        entry: master_image::kind_entry(call.kind),
        chip: numbers::chip_number(call.chip),
        option: master_image::kind_option(call.kind),
        stage: group.number(),
        address: call.address,
        ..Default::default()
    }
}

#[tactic(auto, using(crate::proofs::BeginLaws::here_is))]
fn here_of(call: Call, run: Run) -> Here
    ensures { result ≡ here_in call run (is_read run.direction) }
{
    here::here_by(
        operation::is_read(run.direction),
        run.length,
        run.before,
        run.more,
        master_image::kind_option(call.kind),
    )
}

// The first run's first access; a write without START has none of its own. An empty list has ended.
#[tactic(auto, using(crate::proofs::BeginLaws::starts_ended, crate::proofs::BeginLaws::starts_first, crate::proofs::BeginLaws::begun_block))]
fn starts(block: &mut [u8; 32], call: Call, found: Option<Run>) -> Asked
    ensures { Moves call (start_with (setting_of call) found) block.new result }
{
    match found {
        None => {
            *block = begun_fields(call, Group::Ended).into();
            Asked::done()
        }
        Some(run) => {
            *block = begun_fields(call, Group::Begin).into();
            let here = here_of(call, run);
            if here.reading | here.start {
                return Asked::read(Register::Ctlr1);
            }
            begun(block, here);
            write_bytes(block, here, here.length)
        }
    }
}

// A list that is not whole operations with the direction 0 or 1.
fn misshapen(kind: Kind, list: &[u8]) -> bool
    ensures { result ≡ misshapen kind list.now }
{
    matches!(kind, Kind::Transaction) && !shape::is_shaped(list)
}

// The first cause of refusal, or the first access, with so many bytes lent to write and to read.
#[tactic(auto, using(crate::proofs::BeginLaws::begin_misshapen, crate::proofs::BeginLaws::begin_refused, crate::proofs::BeginLaws::begin_found))]
pub fn begin(
    block: &mut [u8; 32],
    call: Call,
    list: &[u8],
    written: usize,
    room: usize,
) -> Result<Asked, Error>
    ensures { CallBegins call list.now written room block.old block.new result }
{
    if misshapen(call.kind, list) {
        return Err(Error::InvalidArgument);
    }
    let found = lent::look(call.kind, call.address, list, written, room, 0)?;
    Ok(starts(block, call, found))
}
