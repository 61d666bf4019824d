// What a step goes by beside the block. Functions that are inlined take it whole. The others take what they need of it: through memory
// it makes a step 5 to 9 % dearer.
ghost use Rattle.std.specs.Prelude.{◌≡◌};
ghost use Rattle.images.specs.SlaveImage.{kind_of};
ghost use Rattle.slave.specs.Fits.{is_listen, is_respond_to_write, is_respond_to_read};

use slave::Kind;

#[derive(Clone, Copy)]
pub struct Here {
    // The call, how many bytes are lent, and how many are counted.
    pub kind: Kind,
    pub size: u16,
    pub count: u32,
    // The numbers of the stage in its group, the block's bytes: each group looks up its own.
    pub what: u8,
    pub phase: u8,
    // To the access that is owed there.
    pub answer: u16,
}

impl Here {
    pub fn listens(self) -> bool
        ensures { result ≡ is_listen self.kind }
    {
        matches!(self.kind, Kind::Listen)
    }

    pub fn receives(self) -> bool
        ensures { result ≡ is_respond_to_write self.kind }
    {
        matches!(self.kind, Kind::RespondToWrite)
    }

    pub fn replies(self) -> bool
        ensures { result ≡ is_respond_to_read self.kind }
    {
        matches!(self.kind, Kind::RespondToRead)
    }
}

// The call of an entry's number. (`Kind` is of another crate, so no `From`.)
pub fn kind_of(entry: u8) -> Kind
    ensures { result ≡ kind_of entry }
{
    match entry {
        7 => Kind::Listen,
        8 => Kind::RespondToWrite,
        _ => Kind::RespondToRead,
    }
}
