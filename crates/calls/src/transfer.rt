// Transactions, write-reads and frames. Each is what is lent for it: lengths, and a transaction its list.
ghost use Rattle.std.specs.Prelude.{◌≡◌, [], ℕ, List, Some};
ghost use Rattle.asked.specs.Asked.{kept_place};
ghost use Rattle.master.specs.declared.call.Kind.TheVariants as kind;
ghost use Rattle.master.specs.declared.state.State.{State};
ghost use Rattle.master.specs.Steps.{need_of};
ghost use Rattle.master_call.specs.CallStep.{held_in, fitting_in};
ghost use Rattle.calls.specs.Transfer.{called, framed, transaction_call, write_read_call, write_call, read_call};
ghost use Rattle.calls.specs.Laws.{transaction_laws, write_read_laws, write_laws, read_laws, transaction_goes_on, write_read_goes_on, read_goes_on};

use access::Error;
use asked::Asked;
use block::{Block, at};
use call::{Call, OnBlock, Reads};
use master::{FrameOptions, Kind, State};
use master_call::{begin, frame, transaction, write_read};
use master_step::keep;
use registers::Chip;

// Whom a call is with, by which chip.
#[derive(Clone, Copy)]
pub struct Partner {
    pub chip: Chip,
    pub address: u16,
}

// The same of a frame, with its options.
#[derive(Clone, Copy)]
pub struct Framed {
    pub partner: Partner,
    pub options: FrameOptions,
}

fn called(partner: Partner, kind: Kind) -> master::Call
    ensures { result ≡ called partner kind }
{
    let Partner { chip, address } = partner;
    master::Call {
        chip,
        address,
        kind,
    }
}

// Where the byte is to be kept that a block owes, if it owes one.
fn kept_at(block: &[u8; 32]) -> Option<u32>
    ensures { (list : List ℕ) (written room entry : ℕ) (s : State) → fitting_in list written room (held_in entry block.now) ≡ Some s → result ≡ kept_place (need_of s) }
{
    if keep::is_kept(block[at::GROUP], block[at::PHASE]) {
        Some(block.word(at::PLACE) as u32)
    } else {
        None
    }
}

#[derive(Clone, Copy)]
pub struct Transaction<'a> {
    pub list: &'a [u8],
    pub written: usize,
    pub room: usize,
}

impl<'a> OnBlock for Transaction<'a> {
    type Args = Partner;

    type State = State;

    type Store = [u8; 32];

    ghost on = { λ c. transaction_call c.list.now c.written c.room };

    ghost laws = { λ c. transaction_laws c.list.now c.written c.room };
}

impl<'a> Call for Transaction<'a> {
    #[tactic(auto, using(crate::proofs::TransferLaws::transaction_begins))]
    fn begin(&self, partner: Partner, block: &mut [u8; 32]) -> Result<Asked, Error> {
        let call = called(partner, Kind::Transaction);
        begin::begin(block, call, self.list, self.written, self.room)
    }

    #[tactic(auto, using(crate::proofs::TransferLaws::transaction_steps, block::proofs::Codec::all_bytes))]
    fn step(&self, block: &mut [u8; 32], answer: u16) -> Asked {
        transaction::transaction_step(block, self.list, self.written, self.room, answer)
    }
}

impl<'a> Reads for Transaction<'a> {
    fn kept_at(&self, block: &[u8; 32]) -> Option<u32> {
        kept_at(block)
    }

    ghost goes_on = { λ c. transaction_goes_on c.list.now c.written c.room };
}

#[derive(Clone, Copy)]
pub struct WriteRead {
    pub written: usize,
    pub room: usize,
}

impl OnBlock for WriteRead {
    type Args = Partner;

    type State = State;

    type Store = [u8; 32];

    ghost on = { λ c. write_read_call c.written c.room };

    ghost laws = { λ c. write_read_laws c.written c.room };
}

impl Call for WriteRead {
    #[tactic(auto, using(crate::proofs::TransferLaws::write_read_begins))]
    fn begin(&self, partner: Partner, block: &mut [u8; 32]) -> Result<Asked, Error> {
        let none = [0u8; 0];
        let call = called(partner, Kind::WriteRead);
        begin::begin(block, call, &none, self.written, self.room)
    }

    #[tactic(auto, using(crate::proofs::TransferLaws::write_read_steps, block::proofs::Codec::all_bytes))]
    fn step(&self, block: &mut [u8; 32], answer: u16) -> Asked {
        write_read::write_read_step(block, self.written, self.room, answer)
    }
}

impl Reads for WriteRead {
    fn kept_at(&self, block: &[u8; 32]) -> Option<u32> {
        kept_at(block)
    }

    ghost goes_on = { λ c. write_read_goes_on c.written c.room };
}

#[derive(Clone, Copy)]
pub struct Write {
    pub written: usize,
}

impl OnBlock for Write {
    type Args = Framed;

    type State = State;

    type Store = [u8; 32];

    ghost on = { λ c. write_call c.written };

    ghost laws = { λ c. write_laws c.written };
}

impl Call for Write {
    #[tactic(auto, using(crate::proofs::TransferLaws::write_begins))]
    fn begin(&self, framed: Framed, block: &mut [u8; 32]) -> Result<Asked, Error> {
        let none = [0u8; 0];
        let call = called(framed.partner, Kind::Write(framed.options));
        begin::begin(block, call, &none, self.written, 0)
    }

    #[tactic(auto, using(crate::proofs::TransferLaws::write_steps, block::proofs::Codec::all_bytes))]
    fn step(&self, block: &mut [u8; 32], answer: u16) -> Asked {
        frame::write_step(block, self.written, answer)
    }
}

#[derive(Clone, Copy)]
pub struct Read {
    pub room: usize,
}

impl OnBlock for Read {
    type Args = Framed;

    type State = State;

    type Store = [u8; 32];

    ghost on = { λ c. read_call c.room };

    ghost laws = { λ c. read_laws c.room };
}

impl Call for Read {
    #[tactic(auto, using(crate::proofs::TransferLaws::read_begins))]
    fn begin(&self, framed: Framed, block: &mut [u8; 32]) -> Result<Asked, Error> {
        let none = [0u8; 0];
        let call = called(framed.partner, Kind::Read(framed.options));
        begin::begin(block, call, &none, 0, self.room)
    }

    #[tactic(auto, using(crate::proofs::TransferLaws::read_steps, block::proofs::Codec::all_bytes))]
    fn step(&self, block: &mut [u8; 32], answer: u16) -> Asked {
        frame::read_step(block, self.room, answer)
    }
}

impl Reads for Read {
    fn kept_at(&self, block: &[u8; 32]) -> Option<u32> {
        kept_at(block)
    }

    ghost goes_on = { λ c. read_goes_on c.room };
}
