// Replays the stored sample (oracle/SAMPLE.md) on the library: what the Rust made of each call is
// compared access by access, with the end, its value, a reply's second count or an error's flags, and every byte of the read buffer.
#![tactic(auto)]

mod all;
mod library;
mod play;
mod stored;

ghost use Rattle.std.specs.Prelude.{◌≡◌, length};

use all::{Room, Tally};
use input_bytes::read_full;
use std::fs::File;
use std::io;

// Room for the sample, and more.
const MOST: usize = 1048576;

fn space() -> [u8; MOST]
    ensures { 1048576 ≡ length result }
{
    [0; MOST]
}

// With room for the longest that a call is lent.
fn replayed(sample: &[u8]) -> Tally {
    let mut block = [0u8; 4096];
    let mut written = [0u8; 65536];
    let mut read = [0u8; 65536];
    let mut room = Room {
        block: &mut block,
        written: &mut written,
        read: &mut read,
    };
    all::replay(sample, &mut room)
}

fn main(rt: HostRuntime) -> io::Result<()> {
    let mut file = File::open(&rt, "sample.bin")?;
    let mut sample = space();
    let length = read_full(&mut file, &mut sample)?;
    rt.print(replayed(&sample[..length]))
}
