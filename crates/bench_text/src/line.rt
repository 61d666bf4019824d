// One line, its line feed with it.
ghost use Rattle.std.specs.Prelude.{◌≡◌, ◌+◌, ◌≤◌, ◌==◌, ◌&&◌, is_some, length, get_or, set};
ghost use Rattle.std.specs.List.{list_all, position};
ghost use Rattle.std.proofs.lemmas.List.Edits.{sets};
ghost use Rattle.bench_text.specs.Digits.{pair_of, word_of};
ghost use Rattle.bench_text.specs.Lines.{line_length};
ghost use Rattle.bench_text.specs.Forms.{pairs_then_end, words_then_end, bytes_of, words_of, header_of, read_length_of};

use crate::digits;

// The byte at a place, and 0 past the end, which stands in no line.
pub fn byte_at(line: &[u8], at: usize) -> u8
    ensures { result ≡ get_or line.now at 0 }
{
    line.get(at).copied().unwrap_or(0)
}

fn line_feed(text: &[u8]) -> Option<usize>
    ensures { result ≡ position (λ x. x == 10) text.now }
{
    text.iter().position(|byte| *byte == b'\n')
}

// Where the first line ends: behind its line feed, or with the text.
pub fn line_end(text: &[u8]) -> usize
    ensures value { result ≡ line_length text.now }
    ensures upper_bound { result ≤ length text.now }
{
    match line_feed(text) {
        Some(i) => i + 1,
        None => text.len(),
    }
}

// The chip's number and the address.
#[derive(Clone, Copy)]
pub struct Header {
    pub chip: u8,
    pub address: u8,
}

// `T`, the chip and the address.
#[tactic(auto, unfolding(crate::specs::Forms::header_of, crate::specs::Forms::is_header))]
pub fn header_in(line: &[u8]) -> Option<Header>
    ensures { result ≡ header_of line.now }
{
    match line {
        [b'T', b',', chip @ b'0'..=b'3', b',', high, low, b'\n'] => {
            let address = digits::pair(*high, *low)?;
            Some(Header {
                chip: *chip - b'0',
                address,
            })
        }
        _ => None,
    }
}

// The length of an `R` line.
#[tactic(auto, unfolding(crate::specs::Forms::read_length_of))]
pub fn read_length(line: &[u8]) -> Option<u16>
    ensures { result ≡ read_length_of line.now }
{
    match line {
        [_, _, a, b, c, d, b'\n'] => digits::word(*a, *b, *c, *d),
        _ => None,
    }
}

// Whether two bytes are hex digits.
fn is_pair(pair: &[u8; 2]) -> bool
    ensures { result ≡ is_some (pair_of (get_or pair.now 0 0) (get_or pair.now 1 0)) }
{
    digits::pair(pair[0], pair[1]).is_some()
}

// Whether all are.
fn are_pairs(pairs: &[[u8; 2]]) -> bool
    ensures { result ≡ list_all (λ c. is_some (pair_of (get_or c 0 0) (get_or c 1 0))) pairs.now }
{
    pairs.iter().all(|pair| is_pair(pair))
}

// Whether the text is hex pairs and the line feed.
pub fn is_pairs(text: &[u8]) -> bool
    ensures { result ≡ pairs_then_end text.now }
{
    let (pairs, end) = text.as_chunks::<2>();
    are_pairs(pairs) & (end == b"\n".as_slice())
}

// Puts an item at a place of a buffer, and nothing past its end.
pub fn put_at<T: Copy>(out: &mut [T], to: usize, count: usize, item: T)
    ensures { out.new ≡ set out.old (to + count) item }
{
    if to < out.len() && count < out.len() - to {
        out[to + count] = item;
    }
}

// Puts the bytes that hex pairs spell into a buffer, nothing past its end, and answers how many they are.
// Apart from `put_words`: the length of a chunk is in its type, and the items' types and digits differ too.
pub fn put_pairs(text: &[u8], out: &mut [u8], to: usize) -> usize
    ensures value { result ≡ length (bytes_of text.now) }
    ensures upper_bound { result ≤ length text.now }
    ensures out_after { out.new ≡ sets out.old to (bytes_of text.now) }
{
    let (pairs, _) = text.as_chunks::<2>();
    for (i, [high, low]) in pairs.iter().enumerate() {
        put_at(out, to, i, digits::pair(*high, *low).unwrap_or(0));
    }
    pairs.len()
}

// Whether a word of four hex digits and this byte behind it.
fn is_word(word: &[u8; 5], end: u8) -> bool
    ensures { result ≡ (is_some (word_of (get_or word.now 0 0) (get_or word.now 1 0) (get_or word.now 2 0) (get_or word.now 3 0)) && get_or word.now 4 0 == end) }
{
    digits::word(word[0], word[1], word[2], word[3]).is_some() & (word[4] == end)
}

// Whether a comma is behind each.
fn are_words(words: &[[u8; 5]]) -> bool
    ensures { result ≡ list_all (λ c. is_some (word_of (get_or c 0 0) (get_or c 1 0) (get_or c 2 0) (get_or c 3 0)) && get_or c 4 0 == 44) words.now }
{
    words.iter().all(|word| is_word(word, b','))
}

// Whether the text is one or more words of four hex digits, a comma behind each but the last, and behind that the line feed. (Apart from `is_pairs`, where
// nothing is between.)
pub fn is_words(text: &[u8]) -> bool
    ensures { result ≡ words_then_end text.now }
{
    let (words, end) = text.as_chunks::<5>();
    match words.split_last() {
        Some((last, before)) => end.is_empty() & are_words(before) & is_word(last, b'\n'),
        None => false,
    }
}

// Puts the words into a buffer, nothing past its end, and answers how many they are.
pub fn put_words(text: &[u8], out: &mut [u16], to: usize) -> usize
    ensures value { result ≡ length (words_of text.now) }
    ensures upper_bound { result ≤ length text.now }
    ensures out_after { out.new ≡ sets out.old to (words_of text.now) }
{
    let (words, _) = text.as_chunks::<5>();
    for (i, [a, b, c, d, _]) in words.iter().enumerate() {
        put_at(out, to, i, digits::word(*a, *b, *c, *d).unwrap_or(0));
    }
    words.len()
}

// How many words there are.
#[tactic(auto, using(crate::proofs::LineLaws::words_counted))]
pub fn count_words(text: &[u8]) -> usize
    ensures value { result ≡ length (words_of text.now) }
    ensures upper_bound { result ≤ length text.now }
{
    text.len() / 5
}
