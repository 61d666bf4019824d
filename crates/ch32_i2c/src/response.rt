// Listening, receives and replies.
ghost use Rattle.std.specs.Prelude.{◌≡◌, ltb};
ghost use Rattle.call.specs.Edge.{known};
ghost use Rattle.call.specs.Left.{Leaves, LeavesBlock};
ghost use Rattle.ch32_i2c.specs.Response.{listen_begin, listen_step, respond_to_write_begin, respond_to_write_step, respond_to_read_begin, respond_to_read_step};

use call::edge;
use calls::response::Response;
use slave::Kind;

// A chip's number, unless it is none.
fn known_chip(chip: u8) -> Option<u8>
    ensures { result ≡ known (ltb 3 chip) chip }
{
    (chip <= 3).then_some(chip)
}

#[tactic(auto, using(crate::proofs::ResponseLeaves::response_begin_at))]
pub fn ch32_i2c_listen_begin(block: &mut [u8], chip: u8) -> u64
    ensures { LeavesBlock (listen_begin block.old chip) result block.new }
{
    let call = Response {
        kind: Kind::Listen,
        size: 0,
    };
    edge::begin(&call, known_chip(chip), block, &[])
}

#[tactic(auto, using(crate::proofs::ResponseLeaves::response_unread_at))]
pub fn ch32_i2c_listen_step(block: &mut [u8], answer: u16) -> u64
    ensures { LeavesBlock (listen_step block.old answer) result block.new }
{
    let call = Response {
        kind: Kind::Listen,
        size: 0,
    };
    edge::step(&call, block, &[], answer)
}

#[tactic(auto, using(crate::proofs::ResponseLeaves::response_begin_at, crate::proofs::LeftLaws::nothing_read))]
pub fn ch32_i2c_respond_to_write_begin(block: &mut [u8], chip: u8, buffer: &mut [u8]) -> u64
    ensures { Leaves (respond_to_write_begin block.old chip buffer.old) result block.new buffer.new }
{
    let call = Response {
        kind: Kind::RespondToWrite,
        size: buffer.len(),
    };
    edge::begin(&call, known_chip(chip), block, &[])
}

#[tactic(auto, using(crate::proofs::ResponseLeaves::response_step_at))]
pub fn ch32_i2c_respond_to_write_step(block: &mut [u8], buffer: &mut [u8], answer: u16) -> u64
    ensures { Leaves (respond_to_write_step block.old buffer.old answer) result block.new buffer.new }
{
    let call = Response {
        kind: Kind::RespondToWrite,
        size: buffer.len(),
    };
    edge::step_reading(&call, block, &[], buffer, answer)
}

#[tactic(auto, using(crate::proofs::ResponseLeaves::response_begin_at))]
pub fn ch32_i2c_respond_to_read_begin(block: &mut [u8], chip: u8, reply: &[u8]) -> u64
    ensures { LeavesBlock (respond_to_read_begin block.old chip reply.now) result block.new }
{
    let call = Response {
        kind: Kind::RespondToRead,
        size: reply.len(),
    };
    edge::begin(&call, known_chip(chip), block, reply)
}

#[tactic(auto, using(crate::proofs::ResponseLeaves::response_unread_at))]
pub fn ch32_i2c_respond_to_read_step(block: &mut [u8], reply: &[u8], answer: u16) -> u64
    ensures { LeavesBlock (respond_to_read_step block.old reply.now answer) result block.new }
{
    let call = Response {
        kind: Kind::RespondToRead,
        size: reply.len(),
    };
    edge::step(&call, block, reply, answer)
}
