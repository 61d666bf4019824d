// What is asked for next: C's number (docs/USING.md), but for a byte to send or to keep, which is asked for by its place. Code moves
// the number, and contracts see the enum that it stands for.
#![tactic(auto)]

ghost use Rattle.std.specs.Prelude.{◌≡◌, Bool, eqb};
ghost use Rattle.access.specs.declared.ending.Error.TheVariants.{InvalidState};
ghost use Rattle.access.specs.declared.need.Need.TheVariants as need;
ghost use Rattle.access.specs.Endings.{Ending, done, failed};
ghost use Rattle.access.specs.Machine.{filled};
ghost use Rattle.access.specs.Numbers.{next_number, HoldsWords};
ghost use Rattle.images.specs.EndImage.{KeepsEnd};
ghost use Rattle.asked.specs.Asked.{need_number, need_of, NeedHoldsWords};

use access::{Ending, Error, Need, ending, lent};
use images::end_image;
use registers::Register;
use std::marker::Model;

// The kinds beside C's: a byte to send, one to keep, and one to drop (in slave calls). (Numbers: with C's kinds they are a part of one number.)
const SEND: u64 = 4;

const KEEP: u64 = 5;

const DROP: u64 = 6;

// What a refused step asks for: the end 15.
const REFUSED: u64 = 15 * 256;

#[derive(Clone, Copy)]
pub struct Asked {
    number: u64,
}

impl Model for Asked {
    ghost use Rattle.std.specs.Prelude.{◌≡◌, refl};
    ghost use Rattle.access.specs.declared.need.Need.{Need};
    ghost use Rattle.asked.specs.Asked.{need_of, need_number};

    ghost Value = { Need };

    ghost view = { λ a. need_of a.number };

    ghost invariant = { λ a. need_number (need_of a.number) ≡ a.number };

    ghost inverse = { λ n. record { number = need_number n } };

    ghost inverse_ok = { λ a h. rw h refl };
}

impl Asked {
    #[tactic(auto, using(registers::proofs::NumberLaws::register_back, registers::proofs::NumberLaws::register_below, access::proofs::NumberLaws::kind_of_read, access::proofs::NumberLaws::code_of_read))]
    pub fn read(register: Register) -> Asked
        ensures { result ≡ need.Read register }
    {
        Asked {
            number: 1 + u8::from(register) as u64 * 256,
        }
    }

    #[tactic(auto, using(registers::proofs::NumberLaws::register_back, registers::proofs::NumberLaws::register_below, access::proofs::NumberLaws::kind_of_write, access::proofs::NumberLaws::code_of_write, access::proofs::NumberLaws::value_of_write))]
    pub fn write(register: Register, value: u16) -> Asked
        ensures { result ≡ need.Write register value }
    {
        Asked {
            number: 2 + u8::from(register) as u64 * 256 + value as u64 * 65536,
        }
    }

    pub fn clock() -> Asked
        ensures { result ≡ need.Clock }
    {
        Asked { number: 3 }
    }

    // The byte at this place of the bytes lent.
    pub fn send(place: u32) -> Asked
        ensures { result ≡ need.Send place }
    {
        Asked {
            number: SEND + place as u64 * 65536,
        }
    }

    // A byte to keep at this place of the bytes read.
    pub fn keep(place: u32) -> Asked
        ensures { result ≡ need.Keep place }
    {
        Asked {
            number: KEEP + place as u64 * 65536,
        }
    }

    // A byte that is read and dropped.
    pub fn drop() -> Asked
        ensures { result ≡ need.Drop }
    {
        Asked { number: DROP }
    }

    // The call is done.
    pub fn done() -> Asked
        ensures { result ≡ need.End done }
    {
        Asked { number: 0 }
    }

    // The call ends like this.
    #[tactic(auto, using(access::proofs::EndingLaws::end_kind, access::proofs::EndingLaws::number_in))]
    pub fn end(ending: Ending) -> Asked
        ensures { result ≡ need.End ending }
    {
        Asked {
            number: ending::ending_number(ending),
        }
    }

    // The call ends with the end that its block keeps.
    #[tactic(auto, using(crate::proofs::EndLaws::words_kept))]
    pub fn ended(block: &[u8; 32]) -> Asked
        ensures { (e : Ending) → KeepsEnd block.now e → result ≡ need.End e }
    {
        let words = end_image::words(block);
        if !words.is_ending() {
            return Asked::refused();
        }
        Asked {
            number: words.number(),
        }
    }

    // The call is refused with this error.
    pub fn refusal(error: Error) -> Asked
        ensures { result ≡ need.End (failed error) }
    {
        Asked::end(ending::failed(error))
    }

    // A refused step: nothing is written, and the number is 15's.
    pub fn refused() -> Asked
        ensures { result ≡ need.End (failed InvalidState) }
    {
        Asked { number: REFUSED }
    }

    // Whether it is what a refused step asks for.
    pub fn is_refused(self) -> bool
        ensures { result ≡ eqb (need_number self) (need_number (need.End (failed InvalidState))) }
    {
        self.number == REFUSED
    }

    // The number.
    pub fn number(self) -> u64
        ensures value { result ≡ need_number self }
        ensures words { NeedHoldsWords self }
    {
        self.number
    }

    // C's number. Payload goes out here alone: the byte to send is put in from the bytes lent, and one to keep or to drop is a read of DATAR.
    pub fn shown(self, written: &[u8]) -> u64
        ensures value { result ≡ next_number (filled written.now self) }
        ensures holds_words { HoldsWords (filled written.now self) }
    {
        let kind = self.number % 256;
        if kind < SEND {
            return self.number;
        }
        if kind == SEND {
            let place = (self.number / 65536 % 4294967296) as u32;
            let byte = lent::byte_at(written, place);
            return Asked::write(Register::Datar, byte as u16).number;
        }
        Asked::read(Register::Datar).number
    }
}

impl From<Need> for Asked {
    ghost from_gives = { λ n a. a ≡ n };

    fn from(need: Need) -> Asked {
        match need {
            Need::Read(register) => Asked::read(register),
            Need::Write(register, value) => Asked::write(register, value),
            Need::Clock => Asked::clock(),
            Need::Send(place) => Asked::send(place),
            Need::Keep(place) => Asked::keep(place),
            Need::Drop => Asked::drop(),
            Need::End(ending) => Asked::end(ending),
        }
    }
}

// What a number asks for: any number, and not only that of an `Asked`.
pub fn need_of(number: u64) -> Need
    ensures { result ≡ need_of number }
{
    let code = (number / 256 % 256) as u8;
    let value = (number / 65536 % 65536) as u16;
    let place = (number / 65536 % 4294967296) as u32;
    match number % 256 {
        0 => Need::End(ending::ending_in(number)),
        1 => Need::Read(code.into()),
        2 => Need::Write(code.into(), value),
        3 => Need::Clock,
        SEND => Need::Send(place),
        KEEP => Need::Keep(place),
        _ => Need::Drop,
    }
}

impl From<Asked> for Need {
    ghost from_gives = { λ a n. n ≡ a };

    fn from(asked: Asked) -> Need {
        need_of(asked.number)
    }
}
