// Digits: hex in lower case, and decimals.
ghost use Rattle.std.specs.Prelude.{◌≡◌, ◌≤◌, IfSome};
ghost use Rattle.bench_text.specs.Digits.{digit_of, glyph, pair_of, word_of};

// The value of a hex digit.
#[tactic(auto, unfolding(crate::specs::Digits::digit_of))]
pub fn digit(byte: u8) -> Option<u8>
    ensures value { result ≡ digit_of byte }
    ensures upper_bound { IfSome result (λ d. d ≤ 15) }
{
    match byte {
        b'0'..=b'9' => Some(byte - b'0'),
        b'a'..=b'f' => Some(byte - b'a' + 10),
        _ => None,
    }
}

// The value of two hex digits.
#[tactic(auto, unfolding(crate::specs::Digits::pair_of))]
pub fn pair(high: u8, low: u8) -> Option<u8>
    ensures { result ≡ pair_of high low }
{
    let high = digit(high)?;
    let low = digit(low)?;
    Some(high * 16 + low)
}

// The value of four hex digits.
#[tactic(auto, unfolding(crate::specs::Digits::word_of))]
pub fn word(a: u8, b: u8, c: u8, d: u8) -> Option<u16>
    ensures { result ≡ word_of a b c d }
{
    let high = pair(a, b)?;
    let low = pair(c, d)?;
    Some(u16::from_be_bytes([high, low]))
}

// The character of the last hex digit of a number.
#[tactic(auto, unfolding(crate::specs::Digits::glyph))]
pub fn glyph(n: u16) -> u8
    ensures { result ≡ glyph n }
{
    let d = (n % 16) as u8;
    if d < 10 { b'0' + d } else { b'a' + (d - 10) }
}
