// What a step knows of the run that it is in, and what the frame asks there.
ghost use Rattle.std.specs.Prelude.{◌≡◌};
ghost use Rattle.master_step.specs.Going.{starting_in, closing_in, sending_in, receiving_in, last_ones_in, single_in};

#[derive(Clone, Copy)]
pub struct Here {
    // The run: its direction, its bytes, the place of the first of them, and whether another run follows.
    pub reading: bool,
    pub length: u16,
    pub before: u16,
    pub more: bool,
    // START before it, STOP behind it, NACK at its last byte.
    pub start: bool,
    pub stops: bool,
    pub nack: bool,
}

impl Here {
    // Between the run's START and its bytes.
    pub fn starting(self, left: u16) -> bool
        ensures { result ≡ starting_in self left }
    {
        self.start & (left == self.length)
    }

    // All bytes are moved, and STOP is asked.
    pub fn closing(self, left: u16) -> bool
        ensures { result ≡ closing_in self left }
    {
        self.stops & (left == 0)
    }

    // A byte of a write is under way.
    pub fn sending(self, left: u16) -> bool
        ensures { result ≡ sending_in self left }
    {
        !self.reading & (0 < left)
    }

    // A byte is read by RXNE: with NACK only the only one, or one that more than two follow.
    pub fn receiving(self, left: u16) -> bool
        ensures { result ≡ receiving_in self left }
    {
        self.reading & ((0 < left) & (!self.nack | ((3 < left) | (self.length == 1))))
    }

    // One of the last bytes, read by BTF.
    pub fn last_ones(self, left: u16, n: u16) -> bool
        ensures { result ≡ last_ones_in self left n }
    {
        self.reading & (self.nack & ((left == n) & (1 < self.length)))
    }

    // A run of one byte to read, behind its START.
    pub fn single(self, left: u16) -> bool
        ensures { result ≡ single_in self left }
    {
        self.reading & (self.starting(left) & (self.length == 1))
    }
}
