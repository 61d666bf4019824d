// What is lent: the first cause of refusal apart from the list's form, or the run that is asked for. `written` and `room` are
// how many bytes are lent to write and to read.
ghost use Rattle.std.specs.Prelude.{◌≡◌, cond, not, ◌||◌, [], ◌∷◌, eqb, ltb};
ghost use Rattle.access.specs.declared.ending.Error.TheVariants as error;
ghost use Rattle.operations.specs.Operations.{is_read};
ghost use Rattle.operations.specs.Runs.{span, run_at};
ghost use Rattle.operations.specs.declared.operation.Direction.TheVariants as direction;
ghost use Rattle.master.specs.declared.call.Kind.TheVariants as kind;
ghost use Rattle.master.specs.declared.call.FrameOptions.TheVariants as options;
ghost use Rattle.master_lent.specs.Look.{look};

use access::Error;
use master::Kind;
use operations::{Direction, Run, Sums, search};

// 256 operations of three bytes.
const LONGEST_LIST: usize = 768;

fn validate_address(address: u16) -> Result<(), Error>
    ensures { result ≡ cond (ltb 127 address) (Err error.InvalidAddress) (Ok tt) }
{
    if 127 < address {
        return Err(Error::InvalidAddress);
    }
    Ok(())
}

// The bytes lent are not those of the list.
fn is_mismatch(sums: Sums, written: usize, room: usize) -> bool
    ensures { result ≡ (not (eqb written sums.written) || not (eqb room sums.read)) }
{
    (written != usize::from(sums.written)) | (room != usize::from(sums.read))
}

#[tactic(auto, unfolding(crate::specs::Look::look, operations::specs::Search::validate_operations))]
pub fn look_transaction(
    address: u16,
    list: &[u8],
    written: usize,
    room: usize,
    number: u16,
) -> Result<Option<Run>, Error>
    ensures { result ≡ look kind.Transaction address list.now written room number }
{
    validate_address(address)?;
    if LONGEST_LIST < list.len() {
        return Err(Error::TooManyOperations);
    }
    let (sums, found) = search::validate_operations(list, number)?;
    if is_mismatch(sums, written, room) {
        return Err(Error::LengthMismatch);
    }
    Ok(found)
}

#[tactic(auto, unfolding(operations::specs::Runs::run_from))]
fn one_run(direction: Direction, length: u16, number: u16) -> Option<Run>
    ensures { result ≡ run_at (span direction length ∷ []) number }
{
    match number {
        0 => Some(Run {
            direction,
            length,
            before: 0,
            more: false,
        }),
        _ => None,
    }
}

#[tactic(auto, unfolding(operations::specs::Runs::run_from))]
fn two_runs(written: u16, room: u16, number: u16) -> Option<Run>
    ensures { result ≡ run_at (span direction.Write written ∷ span direction.Read room ∷ []) number }
{
    match number {
        0 => Some(Run {
            direction: Direction::Write,
            length: written,
            before: 0,
            more: true,
        }),
        1 => Some(Run {
            direction: Direction::Read,
            length: room,
            before: 0,
            more: false,
        }),
        _ => None,
    }
}

fn length_of(size: usize) -> Result<u16, Error>
    ensures { result ≡ cond (ltb 65535 size) (Err error.BufferTooLong) (Ok size) }
{
    u16::try_from(size).or(Err(Error::BufferTooLong))
}

#[tactic(auto, unfolding(crate::specs::Look::look))]
pub fn look_write_read(
    address: u16,
    written: usize,
    room: usize,
    number: u16,
) -> Result<Option<Run>, Error>
    ensures { result ≡ look kind.WriteRead address [] written room number }
{
    if room == 0 {
        return Err(Error::Overrun);
    }
    validate_address(address)?;
    let written = length_of(written)?;
    let room = length_of(room)?;
    written.checked_add(room).ok_or(Error::BufferTooLong)?;
    Ok(two_runs(written, room, number))
}

// A frame, which is one run.
#[tactic(auto, unfolding(crate::specs::Look::look))]
pub fn look_frame(
    direction: Direction,
    address: u16,
    size: usize,
    number: u16,
) -> Result<Option<Run>, Error>
    ensures { result ≡ cond (is_read direction) (look (kind.Read options.FirstAndLastFrame) address [] 0 size number) (look (kind.Write options.FirstAndLastFrame) address [] size 0 number) }
{
    validate_address(address)?;
    if (direction == Direction::Read) & (size == 0) {
        return Err(Error::Overrun);
    }
    Ok(one_run(direction, length_of(size)?, number))
}

// (A `match`: what each kind is lent differs.)
#[tactic(auto, unfolding(crate::specs::Look::look))]
pub fn look(
    kind: Kind,
    address: u16,
    list: &[u8],
    written: usize,
    room: usize,
    number: u16,
) -> Result<Option<Run>, Error>
    ensures { result ≡ look kind address list.now written room number }
{
    match kind {
        Kind::Transaction => look_transaction(address, list, written, room, number),
        Kind::WriteRead => look_write_read(address, written, room, number),
        Kind::Write(_) => look_frame(Direction::Write, address, written, number),
        Kind::Read(_) => look_frame(Direction::Read, address, room, number),
    }
}
