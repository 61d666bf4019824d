// The fastest bus speed within a window.
ghost use Rattle.ch32_i2c.specs.SpeedWindow.{Answers};

use access::{Error, ending};
use speed_window::window::speed_window;

// Input clock and speeds in hertz. 0 with the divider and the factor of the best pair, or 20.
pub fn ch32_i2c_speed_window(input: u32, lowest: u32, highest: u32) -> u64
    ensures { Answers input lowest highest result }
{
    let found = speed_window(input, lowest, highest);
    match found {
        Some(pair) => ending::ending_number(ending::returned_both(pair.divider, pair.factor)),
        None => ending::ending_number(ending::failed(Error::NoSuchSpeed)),
    }
}
