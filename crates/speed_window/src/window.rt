// The best pair of all factors.
ghost use Rattle.std.specs.Prelude.{◌≡◌};
ghost use Rattle.speed_window.specs.Pairs.{Right, Finds};
ghost use Rattle.speed_window.specs.Formula.{better};

use crate::fastest::fastest;
use crate::pair::Pair;

// The faster of two, and among equals the first, whose factor is smaller.
fn better(first: Option<Pair>, second: Option<Pair>) -> Option<Pair>
    ensures { result ≡ better first second }
{
    match (first, second) {
        (Some(one), Some(other)) => {
            if other.clocks() < one.clocks() {
                second
            } else {
                first
            }
        }
        (Some(_), None) => first,
        (None, _) => second,
    }
}

// All three in hertz.
#[tactic(auto, using(crate::proofs::WindowLaws::window_finds), unfolding(crate::specs::Formula::window))]
pub fn speed_window(input: u32, lowest: u32, highest: u32) -> Option<Pair>
    ensures { Finds input (Right input lowest highest) result }
{
    let standard = fastest(2, 4, 100_000, input, lowest, highest);
    let fast = fastest(3, 1, 400_000, input, lowest, highest);
    let fast_16_9 = fastest(25, 1, 400_000, input, lowest, highest);
    better(better(standard, fast), fast_16_9)
}
