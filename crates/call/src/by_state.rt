// A call whose step takes its state from the block whole, moves it, and writes it whole.
ghost use Rattle.std.specs.Prelude.{◌≡◌};
ghost use Rattle.call.specs.OnBlock.{step_on, Does};
ghost use Rattle.call.specs.CallOn.{on_block, begun, need_by};

use crate::OnBlock;
use access::{Error, Need};
use asked::Asked;

pub trait States: OnBlock {
    // The first state, or the cause that there is none.
    fn first(&self, args: Self::Args) -> Result<Self::State, Error>
        ensures { result ≡ (Self.on self.now).first args };

    fn owed(&self, state: Self::State) -> Need
        ensures { result ≡ (Self.on self.now).need state };

    fn advance(&self, state: Self::State, answer: u16) -> Self::State
        ensures { result ≡ (Self.on self.now).move state answer };

    // The state that a block holds.
    fn found(&self, block: &Self::Store) -> Option<Self::State>
        ensures { result ≡ (Self.on self.now).held block.now };

    fn put(&self, state: Self::State, block: &mut Self::Store)
        ensures { block.new ≡ (Self.on self.now).image state };
}

pub fn begin<C: States>(call: &C, args: C::Args, block: &mut C::Store) -> Result<Asked, Error>
    ensures need { result ≡ need_by (C.on call.now) ((C.on call.now).first args) }
    ensures block { block.new ≡ (begun (C.on call.now) args block.old).block }
{
    let state = call.first(args)?;
    call.put(state, block);
    Ok(call.owed(state).into())
}

#[tactic(auto, unfolding(crate::specs::OnBlock::step_on))]
pub fn step<C: States>(call: &C, block: &mut C::Store, answer: u16) -> Asked
    ensures { Does (step_on (on_block (C.on call.now)) block.old answer) result block.new }
{
    let Some(state) = call.found(block) else {
        return Asked::refused();
    };
    if call.owed(state).is_end() {
        return Asked::refused();
    }
    let next = call.advance(state, answer);
    call.put(next, block);
    call.owed(next).into()
}
