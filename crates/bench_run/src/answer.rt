// What the bench program prints for an input.
ghost use Rattle.std.specs.Prelude.{◌≡◌, ◌+◌, ◌≤◌, length};
ghost use Rattle.bench_text.specs.Puts.{Puts};
ghost use Rattle.bench_text.specs.Input.{input_of};
ghost use Rattle.bench_run.specs.Printed.{printed_of};

use crate::play;
use crate::turn::Lent;
use bench_text::{Call, Text, input};

// Room to work in.
#[derive(Drop)]
pub struct Room<'a> {
    pub list: &'a mut [u8],
    pub written: &'a mut [u8],
    pub answers: &'a mut [u16],
    pub read: &'a mut [u8],
}

// Puts the text for an input. What is lent is lent, since this cannot fail, as a `String` or a `Vec` can.
pub fn answer(text: &mut Text, input: &[u8], room: Room)
    requires in_bounds { 65536 ≤ length room.list.now }
    requires in_bounds_2 { 65536 ≤ length room.written.now }
    requires in_bounds_3 { 4096 ≤ length room.answers.now }
    requires in_bounds_4 { 65535 ≤ length room.read.now }
    requires in_bounds_5 { text.old.at + 262168 ≤ length text.old.out.now }
    ensures puts { Puts text.old.out.now text.old.at (printed_of (input_of input.now) room.entry.read.now) text.new.at text.new.out.now }
    ensures upper_bound { text.new.at ≤ length text.old.out.now }
    ensures same_length { length text.new.out.now ≡ length text.old.out.now }
    ensures same_reference { text.new.out.ghost_name ≡ text.old.out.ghost_name }
{
    let Room {
        list,
        written,
        answers,
        read,
    } = room;
    let Call { header, parts } = match input::parse(input, list, written, answers) {
        Err(line) => return text.put_bad(line.number),
        Ok(call) => call,
    };
    let mut block = [0u8; 32];
    let mut lent = Lent {
        block: &mut block,
        list: &list[..parts.listed],
        written: &written[..parts.written],
        read: &mut read[..parts.room as usize],
    };
    play::play(
        header.chip,
        header.address,
        &mut lent,
        &answers[..parts.answers],
        text,
    );
}
