// What makes a bus clock of the input clock.
ghost use Rattle.std.specs.Prelude.{◌≡◌};
ghost use Rattle.speed_window.specs.Pairs.{clocks};

// So many input clocks make a bus clock: the one number times the other.
#[derive(Clone, Copy)]
pub struct Pair {
    pub factor: u16,
    pub divider: u16,
}

impl Pair {
    pub fn clocks(self) -> u32
        ensures { result ≡ clocks self }
    {
        u32::from(self.factor) * u32::from(self.divider)
    }
}
