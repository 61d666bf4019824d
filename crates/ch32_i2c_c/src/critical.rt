// Where interrupts are to be held off: in which accesses the Rust has `critical_section::with` around it.
ghost use Rattle.std.specs.Prelude.{◌≡◌};
ghost use Rattle.ch32_i2c.specs.Critical.{critical};

#[unsafe(no_mangle)]
pub extern "C" fn ch32_i2c_is_critical(block: &[u8]) -> u64
    ensures { result ≡ critical block.now }
{
    ch32_i2c::critical::ch32_i2c_is_critical(block)
}
