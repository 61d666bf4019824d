// A call on its block as a trait, what holds of every call, and where C calls.
#![tactic(auto)]

pub mod by_state;
pub mod edge;
pub mod payload;

ghost use Rattle.std.specs.Prelude.{◌≡◌, ℕ, List, Result, Ok, Some};
ghost use Rattle.access.specs.declared.ending.Error.{Error};
ghost use Rattle.call.specs.OnBlock.{step_on, Does};
ghost use Rattle.call.specs.CallOn.{CallOn, IsCall, on_block, begun, need_by, steps_from, run_from};
ghost use Rattle.asked.specs.Asked.{kept_place};
ghost use Rattle.call.specs.Kept.{GoesOn};

use access::Error;
use asked::Asked;

// What a call is: its machine, where the states lie, and its laws. `Self` is what is lent at each step.
pub trait OnBlock {
    // What begin is given.
    type Args: Copy;

    type State: Copy;
    // What C lends for it.
    type Store;

    ghost on: { Self → CallOn Self.Args Self.State Self.Store };

    ghost laws: { (c : Self) → IsCall (on c) };
}

// Its two functions.
pub trait Call: OnBlock {
    fn begin(&self, args: Self::Args, block: &mut Self::Store) -> Result<Asked, Error>
        ensures need { result ≡ need_by (Self.on self.now) ((Self.on self.now).first args) }
        ensures block { block.new ≡ (begun (Self.on self.now) args block.old).block };

    fn step(&self, block: &mut Self::Store, answer: u16) -> Asked
        ensures { Does (step_on (on_block (Self.on self.now)) block.old answer) result block.new };
}

// A call that reads.
pub trait Reads: Call {
    // Where the byte is to be kept that a block owes, if it owes one.
    fn kept_at(&self, block: &Self::Store) -> Option<u32>
        ensures { (s : Self.State) → (Self.on self.now).held block.now ≡ Some s → result ≡ kept_place ((Self.on self.now).need s) };

    ghost goes_on: { (c : Self) → GoesOn (Self.OnBlock.on c) };
}

// Begin and steps on the block are the run of the machine, for every call.
pub fn runs<C: OnBlock>()
    ensures { (c : C) (x : C.Args) (s : C.State) (b : C.Store) (answers : List ℕ) → (C.on c).first x ≡ Ok s → steps_from (C.on c) (begun (C.on c) x b) answers ≡ run_from (C.on c) s answers }
{}
