// Reads a call and its answers from standard input, and prints its record to standard output.
#![tactic(auto)]

ghost use Rattle.std.specs.Prelude.{◌≡◌, ◌≤◌, take, IfOk, IfSome};

use bench_run::answer;
use bench_run::answer::Room;
use bench_text::Text;
use input_bytes::read_full;
use std::io;
use std::io::Read;

// Reads the input into `text`, one byte more than is allowed at most, and answers how many bytes stand there.
fn front<R: Read>(input: &mut R, text: &mut [u8; 65537]) -> io::Result<usize>
    ensures in_bounds { IfOk result (λ n. n ≤ 65537) }
    ensures bytes { IfOk result (λ n. IfSome (R.remaining input.old) (λ bytes. take n text.new ≡ take 65537 bytes)) }
{
    read_full(input, text)
}

fn main(rt: HostRuntime) -> io::Result<()> {
    let mut input = [0u8; 65537];
    let n = front(&mut rt.reader(), &mut input)?;
    let mut list = [0u8; 65536];
    let mut written = [0u8; 65536];
    let mut answers = [0u16; 4096];
    let mut read = [0u8; 65535];
    let mut out = [0u8; 262168];
    let mut text = Text {
        out: &mut out,
        at: 0,
    };
    let room = Room {
        list: &mut list,
        written: &mut written,
        answers: &mut answers,
        read: &mut read,
    };
    answer::answer(&mut text, &input[..n], room);
    let Text { out, at } = text;
    rt.write_all(&out[..at])
}
