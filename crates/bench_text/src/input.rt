// The whole input: the call that its lines say, or the first bad line.
ghost use Rattle.std.specs.Prelude.{◌≡◌, ◌≤◌, length};
ghost use Rattle.std.proofs.lemmas.List.Edits.{sets};
ghost use Rattle.bench_text.specs.Input.{operation_bytes, room_with, writes_in, reads_in, answers_in, line_of, said_nothing, input_from, input_of};
ghost use Rattle.bench_text.specs.Taken.{taken_with, list_with, written_with, answers_with, Grows, Room, parsed_of, FilledWith, Within};
ghost use Rattle.bench_text.specs.Lines.{lines_of};

use crate::line;
use crate::line::Header;

// What the lines so far come to: the bytes of the list and to write, the bytes to read (65,535 for more), the answers, and
// whether an `A` line came. (Lengths and no slices: each line puts more into the buffers, which are the caller's.)
#[derive(Clone, Copy)]
pub struct Parts {
    pub listed: usize,
    pub written: usize,
    pub room: u32,
    pub answers: usize,
    pub answered: bool,
}

// The call that an input says.
#[derive(Clone, Copy)]
pub struct Call {
    pub header: Header,
    pub parts: Parts,
}

// The first line that is bad, by its number; 0 where the text is too long.
#[derive(Clone, Copy)]
pub struct BadLine {
    pub number: u32,
}

// The list's three bytes for an operation.
fn put_operation(list: &mut [u8], at: usize, direction: u8, length: usize)
    ensures { list.new ≡ sets list.old at (operation_bytes direction length) }
{
    let [low, high, ..] = length.to_le_bytes();
    line::put_at(list, at, 0, direction);
    line::put_at(list, at, 1, low);
    line::put_at(list, at, 2, high);
}

#[tactic(auto, unfolding(crate::specs::Taken::taken_with, crate::specs::Taken::list_with, crate::specs::Taken::written_with, crate::specs::Input::writes_in))]
fn take_write(line: &[u8], parts: Parts, list: &mut [u8], written: &mut [u8]) -> Option<Parts>
    requires room { Room parts line.now }
    requires in_bounds { 3 ≤ length line.now }
    ensures value { result ≡ taken_with parts (writes_in line.now) }
    ensures list_after { list.new ≡ list_with parts (writes_in line.now) list.old }
    ensures written_after { written.new ≡ written_with parts (writes_in line.now) written.old }
    ensures grows { Grows parts (length line.now) result }
{
    let pairs = &line[2..];
    if !line::is_pairs(pairs) {
        return None;
    }
    if parts.answered {
        return None;
    }
    let count = line::put_pairs(pairs, written, parts.written);
    put_operation(list, parts.listed, 0, count);
    Some(Parts {
        listed: parts.listed + 3,
        written: parts.written + count,
        ..parts
    })
}

fn room_with(room: u32, length: u32) -> u32
    requires room_bound { room ≤ 65535 }
    requires length_len_bound { length ≤ 65535 }
    ensures value { result ≡ room_with room length }
    ensures upper_bound { result ≤ 65535 }
{
    (room + length).min(65535)
}

#[tactic(auto, unfolding(crate::specs::Taken::taken_with, crate::specs::Taken::list_with, crate::specs::Input::reads_in))]
fn take_read(line: &[u8], parts: Parts, list: &mut [u8]) -> Option<Parts>
    requires room { Room parts line.now }
    requires in_bounds { 3 ≤ length line.now }
    ensures value { result ≡ taken_with parts (reads_in line.now) }
    ensures list_after { list.new ≡ list_with parts (reads_in line.now) list.old }
    ensures grows { Grows parts (length line.now) result }
{
    let length = line::read_length(line)?;
    if parts.answered {
        return None;
    }
    put_operation(list, parts.listed, 1, usize::from(length));
    Some(Parts {
        listed: parts.listed + 3,
        room: room_with(parts.room, u32::from(length)),
        ..parts
    })
}

#[tactic(auto, unfolding(crate::specs::Taken::taken_with, crate::specs::Taken::answers_with, crate::specs::Input::answers_in))]
fn take_answers(line: &[u8], parts: Parts, answers: &mut [u16]) -> Option<Parts>
    requires room { Room parts line.now }
    requires in_bounds { 3 ≤ length line.now }
    ensures value { result ≡ taken_with parts (answers_in line.now) }
    ensures answers_after { answers.new ≡ answers_with parts (answers_in line.now) answers.old }
    ensures grows { Grows parts (length line.now) result }
{
    let words = &line[2..];
    if !line::is_words(words) {
        return None;
    }
    let count = line::count_words(words);
    if 4096 < parts.answers + count {
        return None;
    }
    line::put_words(words, answers, parts.answers);
    Some(Parts {
        answers: parts.answers + count,
        answered: true,
        ..parts
    })
}

// A line behind the header.
fn take(
    line: &[u8],
    parts: Parts,
    list: &mut [u8],
    written: &mut [u8],
    answers: &mut [u16],
) -> Option<Parts>
    requires { Room parts line.now }
    ensures value { result ≡ taken_with parts (line_of line.now) }
    ensures list_after { list.new ≡ list_with parts (line_of line.now) list.old }
    ensures written_after { written.new ≡ written_with parts (line_of line.now) written.old }
    ensures answers_after { answers.new ≡ answers_with parts (line_of line.now) answers.old }
    ensures grows { Grows parts (length line.now) result }
{
    if line.len() < 3 {
        return None;
    }
    if line::byte_at(line, 1) != b',' {
        return None;
    }
    let letter = line::byte_at(line, 0);
    if letter == b'W' {
        return take_write(line, parts, list, written);
    }
    if letter == b'R' {
        return take_read(line, parts, list);
    }
    if letter == b'A' {
        return take_answers(line, parts, answers);
    }
    None
}

// The lines behind the header.
fn take_all(
    text: &[u8],
    header: Header,
    list: &mut [u8],
    written: &mut [u8],
    answers: &mut [u16],
) -> Result<Call, BadLine>
    requires { length text.now ≤ 65536 }
    ensures value { result ≡ parsed_of (input_from header.chip header.address 1 said_nothing (lines_of text.now)) }
    ensures filled_with { FilledWith (input_from header.chip header.address 1 said_nothing (lines_of text.now)) list.old list.new written.old written.new answers.old answers.new }
    ensures within { Within result }
{
    let mut left = text;
    let mut number: u32 = 1;
    let mut parts = Parts {
        listed: 0,
        written: 0,
        room: 0,
        answers: 0,
        answered: false,
    };
    // By hand: tried as a `for` over `split_inclusive` and `enumerate`; that its parts are `lines_of` stayed open.
    while !left.is_empty() {
        number += 1;
        let (line, behind) = left.split_at(line::line_end(left));
        parts = take(line, parts, list, written, answers).ok_or(BadLine { number })?;
        left = behind;
    }
    Ok(Call { header, parts })
}

// The call, its list, its bytes to write and its answers at the starts of the buffers; or the first bad line.
pub fn parse(
    text: &[u8],
    list: &mut [u8],
    written: &mut [u8],
    answers: &mut [u16],
) -> Result<Call, BadLine>
    ensures value { result ≡ parsed_of (input_of text.now) }
    ensures filled_with { FilledWith (input_of text.now) list.old list.new written.old written.new answers.old answers.new }
    ensures within { Within result }
{
    if 65536 < text.len() {
        return Err(BadLine { number: 0 });
    }
    let (line, behind) = text.split_at(line::line_end(text));
    let header = line::header_in(line).ok_or(BadLine { number: 1 })?;
    take_all(behind, header, list, written, answers)
}
