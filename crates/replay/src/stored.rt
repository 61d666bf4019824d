// A stored call: its parameters, and its accesses. The format is oracle/SAMPLE.md's.
ghost use Rattle.std.specs.Prelude.{◌<◌, length, IfSome};

// What stands before a call's list.
const HEAD: usize = 36;

// The nine entries of the library.
#[derive(Clone, Copy, PartialEq, Eq)]
pub enum Entry {
    Init,
    Transaction,
    WriteRead,
    Write,
    Read,
    InitSlave,
    Listen,
    RespondToWrite,
    RespondToRead,
}

impl From<u8> for Entry {
    fn from(number: u8) -> Entry {
        match number {
            0 => Entry::Init,
            1 => Entry::Transaction,
            2 => Entry::WriteRead,
            3 => Entry::Write,
            4 => Entry::Read,
            5 => Entry::InitSlave,
            6 => Entry::Listen,
            7 => Entry::RespondToWrite,
            _ => Entry::RespondToRead,
        }
    }
}

// The parameters of every entry; those that an entry does not have are 0.
#[derive(Clone, Copy)]
pub struct Call {
    pub entry: Entry,
    pub chip: u8,
    // The low byte of the address, a master's whole address.
    pub target: u8,
    pub address: u16,
    pub option: u8,
    pub duty: u8,
    pub ten_bit: u8,
    pub has_second: u8,
    pub second: u8,
    pub general_call: u8,
    pub clock_stretching: u8,
    pub block_length: usize,
    pub input: u32,
    pub frequency: u32,
    pub written_length: usize,
    pub read_length: usize,
    pub written_seed: u8,
    pub read_seed: u8,
    pub list_length: usize,
}

fn number(a: u8, b: u8, c: u8, d: u8) -> u32 {
    u32::from_le_bytes([a, b, c, d])
}

impl From<&[u8; HEAD]> for Call {
    fn from(head: &[u8; HEAD]) -> Call {
        Call {
            entry: Entry::from(head[4]),
            chip: head[5],
            target: head[6],
            address: u16::from_le_bytes([head[6], head[7]]),
            option: head[8],
            duty: head[9],
            ten_bit: head[10],
            has_second: head[11],
            second: head[12],
            general_call: head[13],
            clock_stretching: head[14],
            block_length: usize::from(head[15]),
            input: number(head[16], head[17], head[18], head[19]),
            frequency: number(head[20], head[21], head[22], head[23]),
            written_length: number(head[24], head[25], head[26], head[27]) as usize,
            read_length: number(head[28], head[29], head[30], head[31]) as usize,
            written_seed: head[32],
            read_seed: head[33],
            list_length: usize::from(u16::from_le_bytes([head[34], head[35]])),
        }
    }
}

// The parameters at the front of a call's bytes, its list, and its accesses.
pub fn parts(bytes: &[u8]) -> Option<(Call, &[u8], &[u8])> {
    let (head, behind) = bytes.split_first_chunk::<HEAD>()?;
    let call = Call::from(head);
    let (list, accesses) = behind.split_at_checked(call.list_length)?;
    Some((call, list, accesses))
}

// The bytes of the call at the front and what follows them, where a whole call stands there.
pub fn first_call(bytes: &[u8]) -> Option<(&[u8], &[u8])>
    ensures { IfSome result (λ p. length p.1.now < length bytes.now) }
{
    let (length, _) = bytes.split_first_chunk::<4>()?;
    let length = u32::from_le_bytes(*length) as usize;
    if length < HEAD {
        return None;
    }
    bytes.split_at_checked(length)
}

// One access as it is stored: its code, and the word that it was answered with or that it writes.
#[derive(Clone, Copy)]
pub struct Access {
    code: u8,
    value: u16,
}

impl From<&[u8; 3]> for Access {
    fn from(bytes: &[u8; 3]) -> Access {
        let [code, low, high] = *bytes;
        Access {
            code,
            value: u16::from_le_bytes([low, high]),
        }
    }
}

impl Access {
    // Of an access whose answer is owed only the code is stored.
    pub fn owed(code: u8) -> Option<Access> {
        let access = Access { code, value: 0 };
        access.is_owed().then_some(access)
    }

    fn is_owed(self) -> bool {
        self.code & 0x40 != 0
    }

    fn is_write(self) -> bool {
        self.code >> 4 == 2
    }

    // Whether the accesses end here: with an end, or with an answer that is owed.
    pub fn is_last(self) -> bool {
        self.code == 0 || self.is_owed()
    }

    // What it is to come out as: kind, register and, for a write, value.
    pub fn number(self) -> u64 {
        let kind = u64::from((self.code >> 4) & 3);
        let register = u64::from(self.code & 15);
        let value = if self.is_write() { self.value } else { 0 };
        kind | (register << 8) | (u64::from(value) << 16)
    }

    // The answer to it; a write is answered with a word that has to be ignored.
    pub fn answer(self) -> u16 {
        if self.is_write() { 0x5a5a } else { self.value }
    }
}

// An end as it is stored: its number, its value, and its second count or its flags.
#[derive(Clone, Copy)]
pub struct End {
    pub error: u8,
    value: u16,
    pub extra: u16,
}

impl From<&[u8; 6]> for End {
    fn from(bytes: &[u8; 6]) -> End {
        let [_, error, value_low, value_high, extra_low, extra_high] = *bytes;
        End {
            error,
            value: u16::from_le_bytes([value_low, value_high]),
            extra: u16::from_le_bytes([extra_low, extra_high]),
        }
    }
}

impl End {
    // What it comes out as.
    pub fn number(self) -> u64 {
        (u64::from(self.error) << 8) | (u64::from(self.value) << 16)
    }
}

// Byte i of lent bytes: seed + 7 i + i / 256, modulo 256.
pub fn lent(seed: u8, i: usize) -> u8 {
    seed.wrapping_add(((7 * (i % 256) + i / 256) % 256) as u8)
}
