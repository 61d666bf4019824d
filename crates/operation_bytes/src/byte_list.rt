// The bytes of operations, three each: of all, or of 257, one more than a transaction has.
ghost use Rattle.std.specs.Prelude.{◌≡◌, [], ◌++◌, ◌+◌, ◌≤◌, ℕ, List, length, take};
ghost use Rattle.operation_bytes.specs.Encoded.{bytes_of};

use operations::Operation;
use std::marker::Model;

// A list of bytes in memory of a fixed size. No `ArrayVec`: the library would then rest on the statements of a ported crate.
#[derive(Clone, Copy)]
pub struct ByteList {
    bytes: [u8; 771],
    count: usize,
}

impl Model for ByteList {
    ghost use Rattle.std.specs.Prelude.{◌≡◌, refl, ℕ, List, length, take};
    ghost use Rattle.operation_bytes.specs.Filled.{filled, IsFilled};

    ghost Value = { List ℕ };

    ghost view = { λ l. take l.count l.bytes };

    // Behind the list all is 0, so the list tells the fields, and the struct can be copied.
    ghost invariant = { λ l. IsFilled l.count l.bytes };

    ghost inverse = { λ v. record { bytes = filled v; count = length v } };

    ghost inverse_ok = { λ l h. rw (h.2, h.1) refl };
}

// The direction's number, then the length, low byte first.
fn bytes_of(operation: Operation) -> [u8; 3]
    ensures { result ≡ bytes_of operation }
{
    let [low, high] = operation.length.to_le_bytes();
    [operation.direction as u8, low, high]
}

impl ByteList {
    pub fn new() -> Self
        ensures { result ≡ [] }
    {
        ByteList {
            bytes: [0; 771],
            count: 0,
        }
    }

    // One operation more.
    pub fn push(&mut self, operation: Operation)
        requires { length self.old + 3 ≤ 771 }
        ensures { self.new ≡ self.old ++ bytes_of operation }
    {
        let end = self.count + 3;
        self.bytes[self.count..end].copy_from_slice(&bytes_of(operation));
        self.count = end;
    }

    pub fn as_slice(&self) -> &[u8]
        ensures { result.now ≡ self.now }
    {
        &self.bytes[..self.count]
    }
}
