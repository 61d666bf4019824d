// The run of a number in a list that is acceptable.
ghost use Rattle.std.specs.Prelude.{◌≡◌};
ghost use Rattle.master.specs.declared.call.Kind.TheVariants as kind;
ghost use Rattle.master_lent.specs.Look.{look};
ghost use Rattle.list_run.specs.Answer.{found_of};

use crate::runs;

// What a list may have in all, to write and to read.
const MOST_BYTES: u32 = 65535;

// A run: its direction, its length, the bytes of that direction before it, and whether another follows. (No `Run` of crate `operations`: as 16-bit
// numbers these do not stay in registers, which costs 16 instructions a step.)
#[derive(Clone, Copy)]
pub struct Found {
    pub reading: bool,
    pub length: usize,
    pub before: usize,
    pub more: bool,
}

// Every cause of refusal, apart from the address, is the same answer here: no run.
pub fn find(list: &[u8], written: usize, room: usize, number: u16) -> Option<Found>
    ensures { result ≡ found_of (look kind.Transaction 0 list.now written room number) }
{
    let size = list.len();
    if size < 3 {
        return None;
    }
    if 768 < size {
        return None;
    }
    let last = size - 3;
    let place = runs::skip(list, last, number)?;
    if last < place.at {
        return None;
    }
    let behind = runs::pass(list, last, place)?;
    let end = runs::rest(list, last, behind)?;
    if MOST_BYTES < end.written + end.read {
        return None;
    }
    if written != end.written as usize {
        return None;
    }
    if room != end.read as usize {
        return None;
    }
    let before = if behind.reading {
        place.read
    } else {
        place.written
    };
    Some(Found {
        reading: behind.reading,
        length: behind.sum as usize,
        before: before as usize,
        more: behind.at <= last,
    })
}
