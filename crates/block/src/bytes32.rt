// The 32 bytes of a block, numbers low byte first.
ghost use Rattle.std.specs.Prelude.{◌≡◌, ◌+◌, ◌≤◌, ℕ, List, length};
ghost use Rattle.block.specs.Bytes32.{word_at, with_word, long_at, with_long, at_phase, at_stage, fields_of, bytes_of, block_size};

use crate::at;
use crate::fields::Fields;

// The length of a block, in every call.
pub const BLOCK_SIZE: usize = 32;

// Two bytes from a place on, low byte first.
pub fn word_at(bytes: &[u8], at: usize) -> u16
    requires { at + 2 ≤ length bytes.now }
    ensures { result ≡ word_at bytes.now at }
{
    u16::from_le_bytes([bytes[at], bytes[at + 1]])
}

// Four bytes from a place on.
pub fn long_at(bytes: &[u8], at: usize) -> u32
    requires { at + 4 ≤ length bytes.now }
    ensures { result ≡ long_at bytes.now at }
{
    u32::from_le_bytes([bytes[at], bytes[at + 1], bytes[at + 2], bytes[at + 3]])
}

// A block as its caller lends it: 32 bytes.
pub trait Block {
    ghost bytes: { Self → List ℕ };

    // `word_at` of the block.
    fn word(&self, at: usize) -> u16
        requires { at + 2 ≤ block_size }
        ensures { result ≡ word_at (bytes self.now) at };

    // `long_at` of the block.
    fn long(&self, at: usize) -> u32
        requires { at + 4 ≤ block_size }
        ensures { result ≡ long_at (bytes self.now) at };

    fn put_word(&mut self, at: usize, word: u16)
        requires { at + 2 ≤ block_size }
        ensures { bytes self.new ≡ with_word (bytes self.old) at word };

    fn put_long(&mut self, at: usize, long: u32)
        requires { at + 4 ≤ block_size }
        ensures { bytes self.new ≡ with_long (bytes self.old) at long };

    // On to another stage.
    fn to(&mut self, group: u8, what: u8, phase: u8)
        ensures { bytes self.new ≡ at_stage group what phase (bytes self.old) };

    // On to another phase of the stage.
    fn phase(&mut self, phase: u8)
        ensures { bytes self.new ≡ at_phase phase (bytes self.old) };
}

impl Block for [u8; 32] {
    ghost bytes = { λ block. block };

    fn word(&self, at: usize) -> u16 {
        word_at(self, at)
    }

    fn long(&self, at: usize) -> u32 {
        long_at(self, at)
    }

    fn put_word(&mut self, at: usize, word: u16) {
        let [low, high] = word.to_le_bytes();
        self[at] = low;
        self[at + 1] = high;
    }

    fn put_long(&mut self, at: usize, long: u32) {
        self.put_word(at, (long % 65536) as u16);
        self.put_word(at + 2, (long / 65536) as u16);
    }

    fn to(&mut self, group: u8, what: u8, phase: u8) {
        self[at::GROUP] = group;
        self[at::WHAT] = what;
        self[at::PHASE] = phase;
    }

    fn phase(&mut self, phase: u8) {
        self[at::PHASE] = phase;
    }
}

// What a block says.
impl From<&[u8; 32]> for Fields {
    ghost from_gives = { λ block f. f ≡ fields_of block.now };

    #[tactic(auto, unfolding(crate::specs::Bytes32::fields_of))]
    fn from(block: &[u8; 32]) -> Fields {
        Fields {
            entry: block[at::ENTRY],
            chip: block[at::CHIP],
            option: block[at::OPTION],
            stage: block[at::GROUP],
            what: block[at::WHAT],
            phase: block[at::PHASE],
            marks: block[at::MARKS],
            error: block[at::ERROR],
            address: block.word(at::ADDRESS),
            run: block.word(at::RUN),
            left: block.word(at::LEFT),
            place: block.word(at::PLACE),
            word: block.word(at::WORD),
            divider: block.word(at::DIVIDER),
            rise: block.word(at::RISE),
            value: block.word(at::VALUE),
            count: block.long(at::COUNT),
            second: block[at::SECOND],
            mhz: block[at::MHZ],
            extra: block.word(at::EXTRA),
        }
    }
}

// The bytes that say it.
impl From<Fields> for [u8; 32] {
    ghost from_gives = { λ f block. block ≡ bytes_of f };

    #[tactic(auto, unfolding(crate::specs::Bytes32::bytes_of))]
    fn from(f: Fields) -> [u8; 32] {
        let mut block = [0; BLOCK_SIZE];
        block[at::ENTRY] = f.entry;
        block[at::CHIP] = f.chip;
        block[at::OPTION] = f.option;
        block[at::GROUP] = f.stage;
        block[at::WHAT] = f.what;
        block[at::PHASE] = f.phase;
        block[at::MARKS] = f.marks;
        block[at::ERROR] = f.error;
        block.put_word(at::ADDRESS, f.address);
        block.put_word(at::RUN, f.run);
        block.put_word(at::LEFT, f.left);
        block.put_word(at::PLACE, f.place);
        block.put_word(at::WORD, f.word);
        block.put_word(at::DIVIDER, f.divider);
        block.put_word(at::RISE, f.rise);
        block.put_word(at::VALUE, f.value);
        block.put_long(at::COUNT, f.count);
        block[at::SECOND] = f.second;
        block[at::MHZ] = f.mhz;
        block.put_word(at::EXTRA, f.extra);
        block
    }
}
