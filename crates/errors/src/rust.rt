// Our ends as the Rust's: what programs that hold the library to the Rust compare.
ghost use Rattle.std.specs.Prelude.{◌≡◌, Err};
ghost use Rattle.access.specs.Endings.{failed};
ghost use Rattle.errors.specs.AsTheRust.{rust_chain, end_as_the_rusts};

use access::{Ending, Error, ending};
use registers::{Chip, bits, word};

// What the Rust's order finds among the flags of an error; where none is an error, the error itself.
fn found(error: Error, flags: u16, chip: Chip, nack: bool) -> Ending
    ensures { result ≡ rust_chain chip nack flags Err (failed error) }
{
    if word::bit(flags, bits::ARLO) {
        return ending::failed(Error::Arbitration);
    }
    if chip.i2c_v3 & word::bit(flags, bits::TIMEOUT) {
        return ending::failed(Error::Timeout);
    }
    if word::bit(flags, bits::PECERR) {
        return ending::failed(Error::Crc);
    }
    if word::bit(flags, bits::OVR) {
        return ending::failed(Error::Overrun);
    }
    if nack & word::bit(flags, bits::AF) {
        return ending::failed(Error::Nack);
    }
    if chip.ch32v4 & word::bit(flags, bits::BERR) {
        return ending::failed(Error::Bus);
    }
    ending::failed(error)
}

// For a master (`nack`) or a slave. The Rust has no second number and no flags, and tests BERR last.
#[tactic(auto, unfolding(crate::specs::AsTheRust::end_as_the_rusts))]
pub fn as_the_rust(ending: Ending, chip: Chip, nack: bool) -> Ending
    ensures { result ≡ end_as_the_rusts chip nack ending }
{
    match ending {
        Ok(outcome) => ending::returned(outcome.value),
        Err(failure) => found(failure.error, failure.flags, chip, nack),
    }
}
