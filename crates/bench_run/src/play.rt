// A call played with a list of answers, and its record printed.
ghost use Rattle.std.specs.Prelude.{◌≡◌, ◌+◌, ◌≤◌, length, get_or, take};
ghost use Rattle.bench_text.specs.Puts.{Puts};
ghost use Rattle.call.specs.Left.{left};
ghost use Rattle.ch32_i2c.specs.Transfer.{transaction_begin};
ghost use Rattle.bench_run.specs.Lent.{StaysLent};
ghost use Rattle.bench_run.specs.Play.{asked, arriving, is_end, access_text, flags_of, ending_text, finish_text, play_from, most_turns};

use crate::turn;
use crate::turn::Lent;
use access::{Ending, Next, Words};
use bench_text::Text;
use registers::Register;

// More accesses than a call makes on 4,096 answers.
const TURNS: u32 = 16384;

// How many answers an access takes.
fn asked(next: Next) -> usize
    ensures value { result ≡ asked next }
    ensures upper_bound { result ≤ 1 }
{
    usize::from(matches!(next, Next::Read(_) | Next::Clock))
}

// How many bytes arrive with an access.
fn arriving(next: Next) -> usize
    ensures value { result ≡ arriving next }
    ensures upper_bound { result ≤ 1 }
{
    usize::from(matches!(next, Next::Read(Register::Datar)))
}

fn is_end(next: Next) -> bool
    ensures { result ≡ is_end next }
{
    matches!(next, Next::End(_))
}

// The answer at a place, and 0 past the end.
fn answer_at(answers: &[u16], at: usize) -> u16
    ensures { result ≡ get_or answers.now at 0 }
{
    answers.get(at).copied().unwrap_or(0)
}

fn put_access(text: &mut Text, next: Next, answer: u16)
    requires { text.old.at + 14 ≤ length text.old.out.now }
    ensures puts { Puts text.old.out.now text.old.at (access_text next answer) text.new.at text.new.out.now }
    ensures upper_bound { text.new.at ≤ text.old.at + 14 }
    ensures same_reference { text.new.out.ghost_name ≡ text.old.out.ghost_name }
{
    match next {
        Next::Read(register) => text.put_read(register, answer),
        Next::Write(register, value) => text.put_write(register, value),
        Next::Clock => text.put_clock(answer),
        Next::End(_) => {}
    }
}

// The flags of an error.
fn flags_of(ending: Ending) -> u16
    ensures { result ≡ flags_of ending }
{
    match ending {
        Ok(_) => 0,
        Err(failure) => failure.flags,
    }
}

fn put_ending(text: &mut Text, next: Next, used: u32)
    requires { text.old.at + 21 ≤ length text.old.out.now }
    ensures puts { Puts text.old.out.now text.old.at (ending_text next used) text.new.at text.new.out.now }
    ensures upper_bound { text.new.at ≤ text.old.at + 21 }
    ensures same_reference { text.new.out.ghost_name ≡ text.old.out.ghost_name }
{
    match next {
        Next::Read(_) => text.put_open(used),
        Next::Write(_, _) => text.put_open(used),
        Next::Clock => text.put_open(used),
        Next::End(ending) => text.put_end(Words::from(ending).error, used, flags_of(ending)),
    }
}

// The bytes that arrived, and the end.
fn put_last(text: &mut Text, next: Next, bytes: &[u8], used: u32)
    requires { text.old.at + 24 + (length bytes.now + length bytes.now) ≤ length text.old.out.now }
    ensures puts { Puts text.old.out.now text.old.at (finish_text next bytes.now used) text.new.at text.new.out.now }
    ensures upper_bound { text.new.at ≤ length text.old.out.now }
    ensures same_reference { text.new.out.ghost_name ≡ text.old.out.ghost_name }
{
    text.put_arrived(bytes);
    put_ending(text, next, used);
}

fn finish(text: &mut Text, next: Next, read: &[u8], arrived: usize, used: usize)
    requires used_bound { used ≤ 4096 }
    requires arrived_in_bounds { text.old.at + 24 + (arrived + arrived) ≤ length text.old.out.now }
    ensures puts { Puts text.old.out.now text.old.at (finish_text next (take arrived read.now) used) text.new.at text.new.out.now }
    ensures upper_bound { text.new.at ≤ length text.old.out.now }
    ensures same_reference { text.new.out.ghost_name ≡ text.old.out.ghost_name }
{
    put_last(text, next, &read[..arrived.min(read.len())], used as u32);
}

// The transaction of a chip's number and an address, with what is lent, from its begin on.
pub fn play(chip: u8, address: u8, lent: &mut Lent, answers: &[u16], text: &mut Text)
    requires answers_len_bound { length answers.now ≤ 4096 }
    requires in_bounds { text.old.at + 262168 ≤ length text.old.out.now }
    ensures puts { Puts text.old.out.now text.old.at (play_from most_turns lent.old.list.now lent.old.written.now answers.now (transaction_begin lent.old.block.now chip address lent.old.list.now lent.old.written.now lent.old.read.now) 0 0) text.new.at text.new.out.now }
    ensures upper_bound { text.new.at ≤ length text.old.out.now }
    ensures same_reference { text.new.out.ghost_name ≡ text.old.out.ghost_name }
    ensures stays { StaysLent lent.old lent.new }
{
    let first = turn::begin(lent, chip, address);
    go(first, lent, answers, text);
}

fn go(first: Next, lent: &mut Lent, answers: &[u16], text: &mut Text)
    requires answers_len_bound { length answers.now ≤ 4096 }
    requires in_bounds { text.old.at + 262168 ≤ length text.old.out.now }
    ensures puts { Puts text.old.out.now text.old.at (play_from most_turns lent.old.list.now lent.old.written.now answers.now (left first lent.old.block.now lent.old.read.now) 0 0) text.new.at text.new.out.now }
    ensures upper_bound { text.new.at ≤ length text.old.out.now }
    ensures same_reference { text.new.out.ghost_name ≡ text.old.out.ghost_name }
    ensures stays { StaysLent lent.old lent.new }
{
    let mut next = first;
    let mut used: usize = 0;
    let mut arrived: usize = 0;
    // A limit of turns; they have no elements.
    for _turn in 0..TURNS {
        if is_end(next) {
            return finish(text, next, lent.read, arrived, used);
        }
        let taken = asked(next);
        if answers.len() < used + taken {
            return finish(text, next, lent.read, arrived, used);
        }
        let answer = answer_at(answers, used);
        put_access(text, next, answer);
        used += taken;
        arrived += arriving(next);
        next = turn::step(lent, answer);
    }
    finish(text, next, lent.read, arrived, used);
}
