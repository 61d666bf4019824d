// The state of a master call in a block.
ghost use Rattle.std.specs.Prelude.{◌≡◌};
ghost use Rattle.images.specs.MasterImage.{frame_options_number, frame_options_of, kind_entry, kind_option, is_kind};

use crate::numbers::Entry;
use master::{FrameOptions, Kind};

fn frame_options_number(x: FrameOptions) -> u8
    ensures { result ≡ frame_options_number x }
{
    x as u8
}

// (Total, as `specs/MasterImage.antt` says it: `is_kind` refuses other numbers. `FrameOptions` is of another crate, so no `From`.)
pub fn frame_options_of(number: u8) -> FrameOptions
    ensures { result ≡ frame_options_of number }
{
    match number {
        0 => FrameOptions::FirstAndLastFrame,
        1 => FrameOptions::FirstFrame,
        2 => FrameOptions::FirstAndNextFrame,
        3 => FrameOptions::NextFrame,
        4 => FrameOptions::LastFrame,
        _ => FrameOptions::LastFrameNoStop,
    }
}

// (The order of the C header, which `master` does not know: so it is here, and no `From`.)
pub fn kind_entry(kind: Kind) -> u8
    ensures { result ≡ kind_entry kind }
{
    match kind {
        Kind::Transaction => Entry::Transaction as u8,
        Kind::WriteRead => Entry::WriteRead as u8,
        Kind::Write(_) => Entry::Write as u8,
        Kind::Read(_) => Entry::Read as u8,
    }
}

pub fn kind_option(kind: Kind) -> u8
    ensures { result ≡ kind_option kind }
{
    match kind {
        Kind::Transaction | Kind::WriteRead => 0,
        Kind::Write(options) | Kind::Read(options) => frame_options_number(options),
    }
}

// Whether these are the numbers of a kind: only a frame has an option. (Numbers: a block may hold any.)
#[tactic(auto, unfolding(crate::specs::MasterImage::is_kind))]
pub fn is_kind(entry: u8, option: u8) -> bool
    ensures { result ≡ is_kind entry option }
{
    ((1 < entry) & (entry < 6)) & ((option < 6) & ((3 < entry) | (option == 0)))
}
