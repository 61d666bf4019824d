// Which errors a call can meet once its accesses began.
ghost use Rattle.std.specs.Prelude.{◌≡◌, not, ◌&&◌, eqb};
ghost use Rattle.access.specs.Endings.{ending_of, error_of};
ghost use Rattle.errors.specs.Met.{unchecked, has_failed};

use access::Words;
use registers::Chip;

// The error of this number is one that no error check finds.
fn unchecked(error: u8, nack: bool) -> bool
    ensures { result ≡ not (eqb error 0) && unchecked nack (error_of error) }
{
    (error == 4) | (nack & (error == 2))
}

// Whether these are the words of an error that a call can meet, with flags that fit it.
#[tactic(auto, using(crate::proofs::MetLaws::failed_none, crate::proofs::MetLaws::failed_some))]
pub fn has_failed(words: Words, chip: Chip, nack: bool) -> bool
    ensures { result ≡ has_failed chip nack (ending_of words.error words.value words.extra) }
{
    match crate::error_of(words.extra, chip, nack) {
        None => (words.extra == 0) & unchecked(words.error, nack),
        Some(found) => { (u8::from(found.error) == words.error) & (found.flags == words.extra) }
    }
}
