// What a step has to know of the run that it is in.
ghost use Rattle.std.specs.Prelude.{◌≡◌};
ghost use Rattle.master_call.specs.CallStep.{here_by};

use master_step::Here;

// The run by its direction, length and the bytes before it, and whether another follows; what the frame asks by its option's number. (The number
// and no enum: it is the block's byte, and is compared here alone. Four of the six callers have no `Run`.)
pub fn here_by(reading: bool, length: u16, before: u16, more: bool, option: u8) -> Here
    ensures { result ≡ here_by reading length before more option }
{
    Here {
        reading,
        length,
        before,
        more,
        start: option < 3,
        stops: !more & ((option == 0) | (option == 4)),
        nack: !((option == 2) | (option == 3)),
    }
}
