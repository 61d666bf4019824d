// Payload comes in here alone. (It goes out in `Asked::shown`.)
ghost use Rattle.std.specs.Prelude.{◌≡◌, cond};
ghost use Rattle.call.specs.Kept.{stored_at};

use access::lent;
use registers::{fields, word};

// A byte that came is stored, if it is to be kept and the step is not refused.
pub fn keep(kept_at: Option<u32>, refused: bool, read: &mut [u8], answer: u16)
    ensures { read.new ≡ cond refused read.old (stored_at kept_at answer read.old) }
{
    if refused {
        return;
    }
    if let Some(place) = kept_at {
        lent::put_at(read, place, word::field_of(answer, fields::DATA) as u8);
    }
}
