// The fastest right pair of one factor.
ghost use Rattle.std.specs.Prelude.{◌≡◌, ◌<◌};
ghost use Rattle.speed_window.specs.Formula.{within, is_right, fastest_of};

use crate::pair::Pair;
use timing::timing::divider;

// The fastest speed within both limits. (A highest speed of 0 is for an input clock of 0, which every divider makes.)
fn within(highest: u32, top: u32) -> u32
    ensures { result ≡ within highest top }
{
    match highest {
        0 => 1,
        _ => highest.min(top),
    }
}

// What the least divider that is slow enough leaves to be tested, by whole products.
fn is_right(pair: Pair, input: u32, lowest: u32, highest: u32) -> bool
    ensures { result ≡ is_right input lowest highest pair }
{
    let clocks = u64::from(pair.clocks());
    let input = u64::from(input);
    let inside = (u64::from(lowest) * clocks <= input) & (input <= u64::from(highest) * clocks);
    let kind = (pair.factor == 2) | (100_000 * clocks < input);
    (inside & kind) & (pair.divider <= 4095)
}

// The dividers of the factor begin at the floor, and its speeds end at the top. The least divider that is slow enough makes the fastest
// pair; if that is not right it is too slow, and so are all others.
#[tactic(auto, using(crate::proofs::FormulaLaws::right_fastest, crate::proofs::FormulaLaws::wrong_fastest, crate::proofs::FormulaLaws::too_large))]
pub fn fastest(
    factor: u16,
    floor: u64,
    top: u32,
    input: u32,
    lowest: u32,
    highest: u32,
) -> Option<Pair>
    requires factor_nonzero { 0 < factor }
    requires top_nonzero { 0 < top }
    ensures { result ≡ fastest_of factor floor top input lowest highest }
{
    let step = factor as u64 * within(highest, top) as u64;
    let least = divider(input as u64, step, floor);
    if 4095 < least {
        return None;
    }
    let pair = Pair {
        factor,
        divider: least as u16,
    };
    if is_right(pair, input, lowest, highest) {
        Some(pair)
    } else {
        None
    }
}
