// The fastest bus speed within a window.
ghost use Rattle.ch32_i2c.specs.SpeedWindow.{Answers};

#[unsafe(no_mangle)]
pub extern "C" fn ch32_i2c_speed_window(input: u32, lowest: u32, highest: u32) -> u64
    ensures { Answers input lowest highest result }
{
    ch32_i2c::window::ch32_i2c_speed_window(input, lowest, highest)
}
