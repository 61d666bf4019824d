// How a call is to end, in the words of its block.
ghost use Rattle.std.specs.Prelude.{◌≡◌};
ghost use Rattle.access.specs.Endings.{is_done};
ghost use Rattle.images.specs.EndImage.{words_at, ending_at, is_ending_at, is_plain_at, has_failed_at, with_ending};

use crate::numbers;
use access::{Ending, Words};
use block::{Block, at};
use errors::met;

// The block says this ending.
pub fn put(block: &mut [u8; 32], ending: Ending)
    ensures { block.new ≡ with_ending ending block.old }
{
    let words = Words::from(ending);
    block[at::ERROR] = words.error;
    block.put_word(at::VALUE, words.value);
    block.put_word(at::EXTRA, words.extra);
}

// Its words, which may be no ending's.
pub fn words(block: &[u8; 32]) -> Words
    ensures { result ≡ words_at block.now }
{
    Words {
        error: block[at::ERROR],
        value: block.word(at::VALUE),
        extra: block.word(at::EXTRA),
    }
}

// Whether its words are an ending's.
pub fn is_ending(block: &[u8; 32]) -> bool
    ensures { result ≡ is_ending_at block.now }
{
    words(block).is_ending()
}

pub fn is_plain(block: &[u8; 32]) -> bool
    ensures { result ≡ is_plain_at block.now }
{
    words(block).is_plain()
}

// No end is known.
pub fn is_done(block: &[u8; 32]) -> bool
    ensures { result ≡ is_done (ending_at block.now) }
{
    words(block).is_done()
}

// An error was met that the block's chip can give, with flags that fit it.
#[cold]
#[inline(never)]
pub fn has_failed(block: &[u8; 32], nack: bool) -> bool
    ensures { result ≡ has_failed_at nack block.now }
{
    met::has_failed(words(block), numbers::chip_of(block[at::CHIP]), nack)
}
