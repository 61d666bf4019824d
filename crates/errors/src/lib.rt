// The class of a status word: the first error flag that is set decides. Master and slave share it.
#![tactic(auto)]

pub mod met;
pub mod rust;

ghost use Rattle.std.specs.Prelude.{◌≡◌};
ghost use Rattle.access.specs.Endings.{flagged};
ghost use Rattle.registers.specs.Flags.{error_flags};
ghost use Rattle.errors.specs.Classes.{error_of};

use access::{Error, Failure, ending};
use registers::{Chip, bits, flags, word};

// The error with all error flags of the word.
fn failed(error: Error, status: u16) -> Option<Failure>
    ensures { result ≡ Some (flagged error (error_flags status)) }
{
    Some(ending::flagged(error, flags::error_flags(status)))
}

// The error of a STAR1 word, and the flags that are cleared. AF decides for a master (`nack`), and never for a slave.
#[tactic(auto, using(crate::proofs::ClassLaws::as_ifs), unfolding(crate::specs::Classes::error_of))]
pub fn error_of(status: u16, chip: Chip, nack: bool) -> Option<Failure>
    ensures { result ≡ error_of chip nack status }
{
    if word::bit(status, bits::ARLO) {
        return failed(Error::Arbitration, status);
    }
    if chip.ch32v4 & word::bit(status, bits::BERR) {
        return failed(Error::Bus, status);
    }
    if chip.i2c_v3 & word::bit(status, bits::TIMEOUT) {
        return failed(Error::Timeout, status);
    }
    if word::bit(status, bits::PECERR) {
        return failed(Error::Crc, status);
    }
    if word::bit(status, bits::OVR) {
        return failed(Error::Overrun, status);
    }
    if nack & word::bit(status, bits::AF) {
        return failed(Error::Nack, status);
    }
    None
}
