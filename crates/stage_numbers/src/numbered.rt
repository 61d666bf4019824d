// A kind that stands in a block by its number.
ghost use Rattle.std.specs.Prelude.{◌≡◌, ℕ, cond, eqb, Some, None};

pub trait Numbered: Sized {
    ghost number_of: { Self → ℕ };

    ghost kind_of: { ℕ → Self };

    fn number(self) -> u8
        ensures { result ≡ number_of self };

    // `None`: it is the number of none.
    fn of(number: u8) -> Option<Self>
        ensures { result ≡ cond (eqb (number_of (kind_of number)) number) (Some (kind_of number)) None };
}
