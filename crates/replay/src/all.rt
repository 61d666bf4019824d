// All calls of the sample, one behind the other.
ghost use Rattle.std.specs.Prelude.{◌≡◌};

use crate::library::Lent;
use crate::play::Played;
use crate::{play, stored};
use std::fmt;

// How many calls, accesses and bytes were compared, how many calls differ, the number of the first of these, and whether the sample
// was whole.
#[derive(Clone, Copy, Default)]
pub struct Tally {
    calls: u64,
    accesses: u64,
    arrived: u64,
    differences: u64,
    first: Option<u64>,
    whole: bool,
}

impl fmt::Display for Tally {
    fn fmt<W: fmt::Write>(&self, f: &mut fmt::Formatter<W>) -> fmt::Result {
        let Tally {
            calls,
            accesses,
            arrived,
            differences,
            first,
            whole,
        } = *self;
        writeln!(
            f,
            "{calls} calls of the sample, {accesses} accesses, {arrived} bytes read, {differences} differences"
        )?;
        if let Some(first) = first {
            writeln!(f, "the first in call {first}")?;
        }
        if !whole {
            writeln!(f, "the sample is cut short")?;
        }
        Ok(())
    }
}

impl Tally {
    // One call more, with what of it is as stored.
    fn add(&mut self, played: Option<Played>) {
        match played {
            Some(played) => {
                self.accesses = self.accesses.wrapping_add(played.accesses);
                self.arrived = self.arrived.wrapping_add(played.arrived);
            }
            None => {
                self.differences = self.differences.wrapping_add(1);
                self.first = self.first.or(Some(self.calls));
            }
        }
        self.calls = self.calls.wrapping_add(1);
    }
}

// Buffers as long as the longest that a call is lent.
#[derive(Drop)]
pub struct Room<'a> {
    pub block: &'a mut [u8],
    pub written: &'a mut [u8],
    pub read: &'a mut [u8],
}

// One call, with buffers that are cut to the lengths that it is lent.
fn one(bytes: &[u8], room: &mut Room) -> Option<Played>
    ensures same_block { room.new.block.ghost_name ≡ room.old.block.ghost_name }
    ensures same_written { room.new.written.ghost_name ≡ room.old.written.ghost_name }
    ensures same_read { room.new.read.ghost_name ≡ room.old.read.ghost_name }
{
    let (call, list, accesses) = stored::parts(bytes)?;
    let block = room.block.get_mut(..call.block_length)?;
    let written = room.written.get_mut(..call.written_length)?;
    let read = room.read.get_mut(..call.read_length)?;
    block.fill(play::STALE);
    play::fill_lent(written, call.written_seed);
    play::fill_lent(read, call.read_seed);
    let mut lent = Lent {
        block,
        list,
        written,
        read,
    };
    play::play(call, accesses, &mut lent)
}

// Calls as long as there are whole ones. (No `for`: where a call begins is told by the length of the one before it.)
fn calls(sample: &[u8], room: &mut Room) -> Tally
    ensures same_block { room.new.block.ghost_name ≡ room.old.block.ghost_name }
    ensures same_written { room.new.written.ghost_name ≡ room.old.written.ghost_name }
    ensures same_read { room.new.read.ghost_name ≡ room.old.read.ghost_name }
{
    let mut tally = Tally::default();
    let mut left = sample;
    while let Some((call, behind)) = stored::first_call(left) {
        tally.add(one(call, room));
        left = behind;
    }
    tally
}

// The whole sample, behind a mark of 8 bytes and the number of its calls.
pub fn replay(sample: &[u8], room: &mut Room) -> Tally
    ensures same_block { room.new.block.ghost_name ≡ room.old.block.ghost_name }
    ensures same_written { room.new.written.ghost_name ≡ room.old.written.ghost_name }
    ensures same_read { room.new.read.ghost_name ≡ room.old.read.ghost_name }
{
    let Some((front, behind)) = sample.split_first_chunk::<12>() else {
        return Tally::default();
    };
    let count = u32::from_le_bytes([front[8], front[9], front[10], front[11]]);
    let mut tally = calls(behind, room);
    tally.whole = tally.calls == u64::from(count);
    tally
}
