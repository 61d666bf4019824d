// One operation.
ghost use Rattle.std.specs.Prelude.{◌≡◌, ◌+◌, ◌*◌, ◌≤◌, length};
ghost use Rattle.operations.specs.Operations.{is_read, empty_read, direction_of, word_of, operation_at};

#[derive(Clone, Copy, PartialEq, Eq)]
pub enum Direction {
    Write,
    Read,
}

// 0 is a write.
impl From<u8> for Direction {
    ghost from_gives = { λ number direction. direction ≡ direction_of number };

    fn from(number: u8) -> Direction {
        if number == 0 {
            Direction::Write
        } else {
            Direction::Read
        }
    }
}

#[derive(Clone, Copy)]
pub struct Operation {
    pub direction: Direction,
    pub length: u16,
}

pub fn is_read(direction: Direction) -> bool
    ensures { result ≡ is_read direction }
{
    matches!(direction, Direction::Read)
}

// The number that two bytes spell, low byte first.
pub fn word_of(low: u8, high: u8) -> u16
    ensures { result ≡ word_of low high }
{
    u16::from_le_bytes([low, high])
}

// Whether an operation is a read of no bytes.
pub fn is_empty_read(operation: Operation) -> bool
    ensures { result ≡ empty_read operation }
{
    is_read(operation.direction) && operation.length == 0
}

// The operation whose three bytes begin at a place.
pub fn operation_at(list: &[u8], at: usize) -> Operation
    requires { at + 3 ≤ length list.now }
    ensures { result ≡ operation_at list.now at }
{
    Operation {
        direction: Direction::from(list[at]),
        length: word_of(list[at + 1], list[at + 2]),
    }
}
