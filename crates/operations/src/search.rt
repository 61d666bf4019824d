// One search over the runs of a list and their operations: the first fault, or the sums and the run that is asked for.
ghost use Rattle.std.specs.Prelude.{◌≡◌, ◌+◌, ◌≤◌, length};
ghost use Rattle.operations.specs.Runs.{span};
ghost use Rattle.operations.specs.Tally.{found_with, passed};
ghost use Rattle.operations.specs.Seen.{bytes_of, added, ended};
ghost use Rattle.operations.specs.Search.{goes_on, validate_operations};

use crate::operation;
use crate::operation::{Direction, Operation};
use access::Error;

// A run: its direction, the sum of its lengths, the bytes of that direction before it, and whether another run follows.
#[derive(Clone, Copy)]
pub struct Run {
    pub direction: Direction,
    pub length: u16,
    pub before: u16,
    pub more: bool,
}

// The bytes that a list writes and reads.
#[derive(Clone, Copy)]
pub struct Sums {
    pub written: u16,
    pub read: u16,
}

// What the runs passed so far come to. `ahead` counts down to 0, which it reaches with the run that is asked for.
#[derive(Clone, Copy)]
pub struct Tally {
    pub written: u16,
    pub read: u16,
    pub ahead: u32,
    pub found: Option<Run>,
}

// The run that is asked for, if it is this one or was found before.
fn found_with(tally: Tally, direction: Direction, length: u16, more: bool) -> Option<Run>
    ensures { result ≡ found_with tally (span direction length) more }
{
    if tally.ahead != 1 {
        return tally.found;
    }
    let before = if operation::is_read(direction) {
        tally.read
    } else {
        tally.written
    };
    Some(Run {
        direction,
        length,
        before,
        more,
    })
}

// A run is passed.
fn passed(tally: Tally, direction: Direction, length: u16, more: bool) -> Tally
    requires { tally.written + tally.read + length ≤ 65535 }
    ensures { result ≡ passed tally (span direction length) more }
{
    let ahead = tally.ahead.saturating_sub(1);
    let found = found_with(tally, direction, length, more);
    let passed = Tally {
        ahead,
        found,
        ..tally
    };
    if operation::is_read(direction) {
        Tally {
            read: tally.read + length,
            ..passed
        }
    } else {
        Tally {
            written: tally.written + length,
            ..passed
        }
    }
}

// Whether the operation at a place goes on with a run of a direction.
pub fn goes_on(list: &[u8], at: usize, direction: Direction) -> bool
    requires { at + 3 ≤ length list.now }
    ensures { result ≡ goes_on list.now at direction }
{
    let next = operation::operation_at(list, at);
    (list[at] <= 1) & (direction == next.direction)
}

// What the operations so far come to: the runs that are ended, and the one that may go on.
#[derive(Clone, Copy)]
pub struct Seen {
    pub ended: Tally,
    pub run: Option<Operation>,
}

// An operation goes on with the open run, or ends it and opens its own.
fn added(seen: Seen, operation: Operation) -> Seen
    requires { bytes_of seen + operation.length ≤ 65535 }
    ensures { result ≡ added seen operation }
{
    match seen.run {
        None => Seen {
            run: Some(operation),
            ..seen
        },
        Some(run) if run.direction == operation.direction => Seen {
            run: Some(Operation {
                length: run.length + operation.length,
                ..run
            }),
            ..seen
        },
        Some(run) => Seen {
            ended: passed(seen.ended, run.direction, run.length, true),
            run: Some(operation),
        },
    }
}

// The open run ends with the list.
fn ended(seen: Seen) -> Tally
    requires { bytes_of seen ≤ 65535 }
    ensures { result ≡ ended seen }
{
    match seen.run {
        None => seen.ended,
        Some(run) => passed(seen.ended, run.direction, run.length, false),
    }
}

// The Rust's `validate_operations`, left from inside at the first fault: an operation that is none (16), an empty read (6),
// or a total above 65,535 (8). A list without a fault has its sums, and the run of a number.
pub fn validate_operations(list: &[u8], number: u16) -> Result<(Sums, Option<Run>), Error>
    ensures { result ≡ validate_operations list.now number }
{
    let (operations, end) = list.as_chunks::<3>();
    let mut total: u32 = 0;
    let mut seen = Seen {
        ended: Tally {
            written: 0,
            read: 0,
            ahead: number as u32 + 1,
            found: None,
        },
        run: None,
    };
    for bytes in operations {
        if 1 < bytes[0] {
            return Err(Error::InvalidArgument);
        }
        let operation = operation::operation_at(bytes, 0);
        if operation::is_empty_read(operation) {
            return Err(Error::Overrun);
        }
        total += operation.length as u32;
        if 65535 < total {
            return Err(Error::BufferTooLong);
        }
        seen = added(seen, operation);
    }
    if !end.is_empty() {
        return Err(Error::InvalidArgument);
    }
    let Tally {
        written,
        read,
        found,
        ..
    } = ended(seen);
    Ok((Sums { written, read }, found))
}
