// Listening, receives and replies.
ghost use Rattle.std.specs.Prelude.{◌≡◌};
ghost use Rattle.images.specs.SlaveImage.{kind_entry};
ghost use Rattle.calls.specs.Laws.{response_laws, response_goes_on};
ghost use Rattle.calls.specs.Response.{response_call};

use access::Error;
use asked::Asked;
use block::{Block, at};
use call::{Call, OnBlock, Reads};
use images::numbers::Entry;
use slave::{Kind, State};
use slave_step::{begin, keep, step};

// A slave call with so many bytes lent.
#[derive(Clone, Copy)]
pub struct Response {
    pub kind: Kind,
    pub size: usize,
}

impl OnBlock for Response {
    // C's number of the chip. (No `Chip`: a begin takes every number, so a type would ask more of callers.)
    type Args = u8;

    type State = State;

    type Store = [u8; 32];

    ghost on = { λ c. response_call c.size c.kind };

    ghost laws = { λ c. response_laws c.size c.kind };
}

fn entry(kind: Kind) -> u8
    ensures { result ≡ kind_entry kind }
{
    match kind {
        Kind::Listen => Entry::Listen as u8,
        Kind::RespondToWrite => Entry::RespondToWrite as u8,
        Kind::RespondToRead => Entry::RespondToRead as u8,
    }
}

impl Call for Response {
    fn begin(&self, chip: u8, block: &mut [u8; 32]) -> Result<Asked, Error> {
        if 65535 < self.size {
            return Err(Error::BufferTooLong);
        }
        Ok(begin::begin(block, self.kind, chip))
    }

    // (Inlined, so that the kind is known: a receive's step costs 104 instructions for 137.)
    #[inline(always)]
    #[tactic(auto, using(crate::proofs::ResponseLaws::steps_by))]
    fn step(&self, block: &mut [u8; 32], answer: u16) -> Asked {
        step::step(block, entry(self.kind), self.size, answer)
    }
}

impl Reads for Response {
    fn kept_at(&self, block: &[u8; 32]) -> Option<u32> {
        let count = block.long(at::COUNT);
        if keep::is_kept(block[at::GROUP], self.size, count) {
            Some(count)
        } else {
            None
        }
    }

    ghost goes_on = { λ c. response_goes_on c.size c.kind };
}
