// The runs of a list, one after the other. `last` is where the last whole operation can begin.
ghost use Rattle.std.specs.Prelude.{◌≡◌, ◌-◌, ◌≤◌};
ghost use Rattle.list_run.specs.Passing.{start_place, counted, added_to, Listed, Reached, Starts, Opens, Passes, Skips, PassesOne, Rests};

use operations::operation::{Direction, Operation};
use operations::{operation, search};

// Before a run, or behind the last one: the bytes written and read before it, and the direction and the bytes of the run behind
// which it is.
#[derive(Clone, Copy)]
pub struct Place {
    pub at: usize,
    pub written: u32,
    pub read: u32,
    pub reading: bool,
    pub sum: u32,
}

pub fn start() -> Place
    ensures { result ≡ start_place }
{
    Place {
        at: 0,
        written: 0,
        read: 0,
        reading: false,
        sum: 0,
    }
}

// The bytes of a direction before a place.
fn counted(direction: Direction, place: Place) -> u32
    ensures { result ≡ counted direction place }
{
    match direction {
        Direction::Write => place.written,
        Direction::Read => place.read,
    }
}

// Behind a run of a direction, up to which so many bytes of it are counted.
#[inline(always)]
fn behind(from: Place, direction: Direction, at: usize, count: u32) -> Place
    requires { counted direction from ≤ count }
    ensures { result ≡ added_to from direction at (count - counted direction from) }
{
    match direction {
        Direction::Write => Place {
            at,
            written: count,
            reading: false,
            sum: count - from.written,
            ..from
        },
        Direction::Read => Place {
            at,
            read: count,
            reading: true,
            sum: count - from.read,
            ..from
        },
    }
}

// The run of a direction that begins at a place. (Inlined, so that each direction has a loop of its own. Tried as a `for` over the elements,
// by `take_while` and by `step_by`: for a list of 256 runs these take 38, 23 and 128 % more instructions.)
#[inline(always)]
fn pass_run(list: &[u8], last: usize, from: Place, direction: Direction) -> Option<Place>
    requires { Opens list.now last from direction }
    ensures { Passes list.now from result }
{
    let mut at = from.at;
    let mut count = counted(direction, from);
    loop {
        let operation = Operation {
            direction,
            length: operation::word_of(list[at + 1], list[at + 2]),
        };
        if operation::is_empty_read(operation) {
            return None;
        }
        count += operation.length as u32;
        at += 3;
        if last < at || !search::goes_on(list, at, direction) {
            return Some(behind(from, direction, at, count));
        }
    }
}

// The run that begins at a place.
pub fn pass(list: &[u8], last: usize, from: Place) -> Option<Place>
    requires { Starts list.now last from }
    ensures { Passes list.now from result }
{
    match list[from.at] {
        0 => pass_run(list, last, from, Direction::Write),
        1 => pass_run(list, last, from, Direction::Read),
        _ => None,
    }
}

// So many runs from the list's beginning on. (The `for` counts runs and names no element: where a run begins is where the one before it led.)
pub fn skip(list: &[u8], last: usize, number: u16) -> Option<Place>
    requires { Listed list.now last }
    ensures { Skips list.now last number result }
{
    let mut place = start();
    for passed in 0..number {
        if last < place.at {
            return None;
        }
        place = pass(list, last, place)?;
    }
    Some(place)
}

// One operation, of whichever run.
fn pass_one(list: &[u8], last: usize, from: Place) -> Option<Place>
    requires { Starts list.now last from }
    ensures { PassesOne list.now from result }
{
    let length = operation::word_of(list[from.at + 1], list[from.at + 2]);
    let at = from.at + 3;
    match list[from.at] {
        0 => Some(behind(from, Direction::Write, at, from.written + length as u32)),
        1 if length != 0 => Some(behind(from, Direction::Read, at, from.read + length as u32)),
        _ => None,
    }
}

// All operations from a place on. (Tried as a `for` over the elements: with their number to be found first, each step takes up to ten instructions more.)
pub fn rest(list: &[u8], last: usize, from: Place) -> Option<Place>
    requires { Reached list.now last from }
    ensures { Rests list.now from result }
{
    let mut place = from;
    while place.at <= last {
        place = pass_one(list, last, place)?;
    }
    if place.at != list.len() {
        return None;
    }
    Some(place)
}
