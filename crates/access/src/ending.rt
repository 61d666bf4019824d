// How a call ends.
ghost use Rattle.std.specs.Prelude.{◌≡◌, ◌/◌, ◌%◌};
ghost use Rattle.access.specs.Numbers.{EndHoldsWords};
ghost use Rattle.access.specs.Endings.{error_number, words_of, words_number, ending_number, error_of, ending_of, ending_in, is_ending, is_plain, flagged, failure_of, done, returned, returned_both, failed, is_done};

// The Rust's `Error`, and behind it the refusals that the port adds; 18 to 27 are for calls beside the Rust's. (The Rust's
// `ZeroLengthTransfer`, 7, is never given.)
#[derive(Clone, Copy)]
pub enum Error {
    Bus = 1,
    Arbitration = 2,
    Nack = 3,
    Timeout = 4,
    Crc = 5,
    Overrun = 6,
    BufferTooLong = 8,
    InvalidAddress = 9,
    InvalidFrequency = 10,
    DividerTooLarge = 11,
    InputTooSlow = 12,
    TooManyOperations = 13,
    LengthMismatch = 14,
    InvalidState = 15,
    InvalidArgument = 16,
    ReservedAddress = 17,
    BlockLength = 18,
    WrongCode = 19,
    NoSuchSpeed = 20,
    NoAllowance = 21,
    TooManyBuses = 22,
    TooManyItems = 23,
    NoOrder = 24,
    NoSuchDate = 25,
    WrongDate = 26,
    MapLength = 27,
}

// What is known of an error: an error check says which flags it cleared.
#[derive(Clone, Copy)]
pub struct Failure {
    pub error: Error,
    pub flags: u16,
}

// What a call that is done returns: the bytes stored, the bytes left over or the command of a slave call, and else 0. The second
// number is a reply's: the bytes left over if a byte that the master did not take is not counted as sent.
#[derive(Clone, Copy)]
pub struct Outcome {
    pub value: u16,
    pub second: u16,
}

// Done, with what it returns, or failed.
pub type Ending = Result<Outcome, Failure>;

impl From<Error> for u8 {
    ghost from_gives = { λ e n. n ≡ error_number e };

    fn from(error: Error) -> u8 {
        error as u8
    }
}

// An end in words, as a block keeps it and C sees it: the number of its error, or 0; what is returned; and what else there is to know,
// the second number that is returned or the flags.
#[derive(Clone, Copy)]
pub struct Words {
    pub error: u8,
    pub value: u16,
    pub extra: u16,
}

impl From<Ending> for Words {
    ghost from_gives = { λ e w. w ≡ words_of e };

    fn from(ending: Ending) -> Words {
        match ending {
            Ok(outcome) => Words {
                error: 0,
                value: outcome.value,
                extra: outcome.second,
            },
            Err(failure) => Words {
                error: failure.error.into(),
                value: 0,
                extra: failure.flags,
            },
        }
    }
}

impl Words {
    // As C sees them: the error's number in bits 8 to 15, what is returned in bits 16 to 31; the extra number in bits 32 to 47 of an end
    // with 0, and in bits 48 to 63 of an error.
    pub fn number(self) -> u64
        ensures { result ≡ words_number self.error self.value self.extra }
    {
        if self.error == 0 {
            return self.value as u64 * 65536 + self.extra as u64 * 4294967296;
        }
        self.error as u64 * 256 + self.value as u64 * 65536 + self.extra as u64 * 281474976710656
    }

    // The value is one that such an end has a use for: a call that fails returns nothing.
    pub fn is_plain(self) -> bool
        ensures { result ≡ is_plain self.error self.value }
    {
        (self.error == 0) | (self.value == 0)
    }

    // Whether these are the words of an ending. No error is number 7.
    #[tactic(auto, using(crate::proofs::EndingLaws::ending_range))]
    pub fn is_ending(self) -> bool
        ensures { result ≡ is_ending self.error self.value self.extra }
    {
        ((self.error != 7) & (self.error < 28)) & self.is_plain()
    }

    // Whether these are the words of an end that is not known yet: done, with nothing to return.
    pub fn is_done(self) -> bool
        ensures { result ≡ is_done (ending_of self.error self.value self.extra) }
    {
        (self.error == 0) & ((self.value == 0) & (self.extra == 0))
    }
}

// An ending as C sees it. (No `From`: neither type is of this crate.)
pub fn ending_number(ending: Ending) -> u64
    ensures value { result ≡ ending_number ending }
    ensures end_holds_words { EndHoldsWords ending }
{
    Words::from(ending).number()
}

// The error of a number, and the last of one that no error has. (Total, as the definition is: a `TryFrom` would need an error that nobody reads.)
impl From<u8> for Error {
    ghost from_gives = { λ n e. e ≡ error_of n };

    fn from(number: u8) -> Error {
        match number {
            1 => Error::Bus,
            2 => Error::Arbitration,
            3 => Error::Nack,
            4 => Error::Timeout,
            5 => Error::Crc,
            6 => Error::Overrun,
            8 => Error::BufferTooLong,
            9 => Error::InvalidAddress,
            10 => Error::InvalidFrequency,
            11 => Error::DividerTooLarge,
            12 => Error::InputTooSlow,
            13 => Error::TooManyOperations,
            14 => Error::LengthMismatch,
            15 => Error::InvalidState,
            16 => Error::InvalidArgument,
            17 => Error::ReservedAddress,
            18 => Error::BlockLength,
            19 => Error::WrongCode,
            20 => Error::NoSuchSpeed,
            21 => Error::NoAllowance,
            22 => Error::TooManyBuses,
            23 => Error::TooManyItems,
            24 => Error::NoOrder,
            25 => Error::NoSuchDate,
            26 => Error::WrongDate,
            _ => Error::MapLength,
        }
    }
}

// The ending of what C sees. (No `From`, as of `ending_number`.)
pub fn ending_in(number: u64) -> Ending
    ensures { result ≡ ending_in number }
{
    let error = (number / 256 % 256) as u8;
    if error != 0 {
        let flags = (number / 281474976710656 % 65536) as u16;
        return Err(flagged(error.into(), flags));
    }
    let value = (number / 65536 % 65536) as u16;
    let second = (number / 4294967296 % 65536) as u16;
    returned_both(value, second)
}

// An error that an error check found, with the flags that it cleared.
pub fn flagged(error: Error, flags: u16) -> Failure
    ensures { result ≡ flagged error flags }
{
    Failure { error, flags }
}

// An error that no error check found.
impl From<Error> for Failure {
    ghost from_gives = { λ e f. f ≡ failure_of e };

    fn from(error: Error) -> Failure {
        flagged(error, 0)
    }
}

// Done, with nothing to return.
pub fn done() -> Ending
    ensures { result ≡ done }
{
    returned(0)
}

// Done, with a value.
pub fn returned(value: u16) -> Ending
    ensures { result ≡ returned value }
{
    returned_both(value, 0)
}

// Done, with a value and a second number.
pub fn returned_both(value: u16, second: u16) -> Ending
    ensures { result ≡ returned_both value second }
{
    Ok(Outcome { value, second })
}

pub fn failed(error: Error) -> Ending
    ensures { result ≡ failed error }
{
    Err(Failure::from(error))
}
