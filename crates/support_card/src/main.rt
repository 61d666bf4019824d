// Prints how many of the 65,536 status words lead to each error class, for every chip, as a master and as a slave.
#![tactic(auto)]

mod card;

use bench_text::Text;
use std::io;

fn main(rt: HostRuntime) -> io::Result<()> {
    let mut out = [0u8; 1995];
    let mut text = Text {
        out: &mut out,
        at: 0,
    };
    card::put_card(&mut text);
    let Text { out, at } = text;
    rt.write_all(&out[..at])
}
