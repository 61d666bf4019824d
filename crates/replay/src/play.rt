// One stored call on the library.
ghost use Rattle.std.specs.Prelude.{◌≤◌, length, IfSome};
ghost use Rattle.replay.specs.Lent.{StaysLent};

use crate::library::Lent;
use crate::stored::{Access, Call, End, Entry};
use crate::{library, stored};

// What lies in the block before the call.
pub const STALE: u8 = 0xc3;

// A step after the end.
const ENDED: u64 = 0xf00;

// How much of a call was compared, where all of it is as stored.
#[derive(Clone, Copy)]
pub struct Played {
    pub accesses: u64,
    pub arrived: u64,
}

fn is_stale(block: &[u8]) -> bool {
    block.iter().all(|byte| *byte == STALE)
}

// Bytes by the rule of lent bytes.
pub fn fill_lent(bytes: &mut [u8], seed: u8) {
    for (i, byte) in bytes.iter_mut().enumerate() {
        *byte = stored::lent(seed, i);
    }
}

// Whether the read bytes begin with those that arrived and are otherwise as before the call.
fn as_stored(read: &[u8], seed: u8, arrived: &[u8]) -> bool {
    read.starts_with(arrived)
        && read
            .iter()
            .enumerate()
            .skip(arrived.len())
            .all(|(i, byte)| *byte == stored::lent(seed, i))
}

// The last of a call's accesses, behind all that are as stored, with what the library says there.
#[derive(Clone, Copy)]
struct Reached<'a> {
    left: &'a [u8],
    next: u64,
}

// Steps as long as the accesses are as stored, up to the last. (No `for`: what is left there is handed back.)
fn steps<'a>(entry: Entry, begun: u64, accesses: &'a [u8], lent: &mut Lent) -> Option<Reached<'a>>
    ensures shorter { IfSome result (λ r. length r.left.now ≤ length accesses.now) }
    ensures stays { StaysLent lent.old lent.new }
{
    let mut next = begun;
    let mut left = accesses;
    while let Some((bytes, behind)) = left.split_first_chunk::<3>() {
        let access = Access::from(bytes);
        if access.is_last() {
            return Some(Reached { left, next });
        }
        if next != access.number() {
            return None;
        }
        next = library::step(entry, lent, access.answer());
        left = behind;
    }
    None
}

// What stands behind the last of the accesses, where the library says the same. A refused begin has left the block alone; after
// any other end a step answers 15.
fn finish<'a>(call: Call, is_first: bool, reached: Reached<'a>, lent: &mut Lent) -> Option<&'a [u8]>
    ensures shorter { IfSome result (λ l. length l.now ≤ length reached.entry.left.now) }
    ensures stays { StaysLent lent.old lent.new }
{
    let (code, behind) = reached.left.split_first()?;
    if let Some(access) = Access::owed(*code) {
        return (reached.next == access.number()).then_some(behind);
    }
    let (bytes, behind) = reached.left.split_first_chunk::<6>()?;
    let end = End::from(bytes);
    if library::as_the_rust(call.entry, call.chip, reached.next) != end.number()
        || library::extra(reached.next) != end.extra
    {
        return None;
    }
    let is_over = if is_first && end.error != 0 {
        is_stale(lent.block)
    } else {
        library::step(call.entry, lent, 0x1234) == ENDED
    };
    is_over.then_some(behind)
}

// How many bytes arrived, where they and the read bytes are as stored: behind their number.
fn arrived(read: &[u8], seed: u8, left: &[u8]) -> Option<u64> {
    let (number, bytes) = left.split_first_chunk::<2>()?;
    let number = u16::from_le_bytes(*number);
    let same = usize::from(number) == bytes.len() && as_stored(read, seed, bytes);
    same.then_some(u64::from(number))
}

// A call with what is lent to it; nothing where it differs from what is stored.
pub fn play(call: Call, accesses: &[u8], lent: &mut Lent) -> Option<Played>
    ensures stays { StaysLent lent.old lent.new }
{
    let begun = library::begin(call, lent);
    let reached = steps(call.entry, begun, accesses, lent)?;
    let compared = accesses.len() - reached.left.len();
    let left = finish(call, compared == 0, reached, lent)?;
    let arrived = arrived(lent.read, call.read_seed, left)?;
    Some(Played {
        accesses: (compared / 3) as u64,
        arrived,
    })
}
