// Text put into a lent buffer, since that cannot fail, as a `String` can.
ghost use Rattle.std.specs.Prelude.{◌≡◌, ◌+◌, ◌≤◌, length};
ghost use Rattle.bench_text.specs.Digits.{decimal_glyph, word_text, pair_text, decimal_text, hex_text};
ghost use Rattle.bench_text.specs.Puts.{Puts};

use crate::digits;

// A buffer, and the place behind the text that was put. (What room there has to be each method asks for itself: it differs.)
#[derive(Drop)]
pub struct Text<'a> {
    pub out: &'a mut [u8],
    pub at: usize,
}

impl Text<'_> {
    pub fn put(&mut self, bytes: &[u8])
        requires { self.old.at + length bytes.now ≤ length self.old.out.now }
        ensures puts { Puts self.old.out.now self.old.at bytes.now self.new.at self.new.out.now }
        ensures same_length { length self.new.out.now ≡ length self.old.out.now }
        ensures same_reference { self.new.out.ghost_name ≡ self.old.out.ghost_name }
    {
        let end = self.at + bytes.len();
        self.out[self.at..end].copy_from_slice(bytes);
        self.at = end;
    }

    // A word as four hex digits.
    pub fn put_word(&mut self, value: u16)
        requires { self.old.at + 4 ≤ length self.old.out.now }
        ensures puts { Puts self.old.out.now self.old.at (word_text value) self.new.at self.new.out.now }
        ensures same_reference { self.new.out.ghost_name ≡ self.old.out.ghost_name }
    {
        self.put(&[
            digits::glyph(value / 4096),
            digits::glyph(value / 256),
            digits::glyph(value / 16),
            digits::glyph(value),
        ]);
    }

    // A byte as two hex digits.
    pub fn put_pair(&mut self, value: u8)
        requires { self.old.at + 2 ≤ length self.old.out.now }
        ensures puts { Puts self.old.out.now self.old.at (pair_text value) self.new.at self.new.out.now }
        ensures same_reference { self.new.out.ghost_name ≡ self.old.out.ghost_name }
    {
        self.put(&[
            digits::glyph(value as u16 / 16),
            digits::glyph(value as u16),
        ]);
    }

    // Bytes as hex pairs.
    pub fn put_hex(&mut self, bytes: &[u8])
        requires { self.old.at + (length bytes.now + length bytes.now) ≤ length self.old.out.now }
        ensures puts { Puts self.old.out.now self.old.at (hex_text bytes.now) self.new.at self.new.out.now }
        ensures value { self.new.at ≡ self.old.at + (length bytes.now + length bytes.now) }
        ensures same_length { length self.new.out.now ≡ length self.old.out.now }
        ensures same_reference { self.new.out.ghost_name ≡ self.old.out.ghost_name }
    {
        for byte in bytes {
            self.put_pair(*byte);
        }
    }

    // A number below 100,000 in decimal; of a larger one the last five digits.
    #[tactic(auto, unfolding(crate::specs::Digits::decimal_text))]
    pub fn put_decimal(&mut self, n: u32)
        requires { self.old.at + 5 ≤ length self.old.out.now }
        ensures puts { Puts self.old.out.now self.old.at (decimal_text n) self.new.at self.new.out.now }
        ensures upper_bound { self.new.at ≤ self.old.at + 5 }
        ensures same_length { length self.new.out.now ≡ length self.old.out.now }
        ensures same_reference { self.new.out.ghost_name ≡ self.old.out.ghost_name }
    {
        if n < 10 {
            return self.put(&[decimal_digit(n)]);
        }
        if n < 100 {
            return self.put(&[decimal_digit(n / 10), decimal_digit(n)]);
        }
        if n < 1000 {
            return self.put(&[
                decimal_digit(n / 100),
                decimal_digit(n / 10),
                decimal_digit(n),
            ]);
        }
        if n < 10000 {
            return self.put(&[
                decimal_digit(n / 1000),
                decimal_digit(n / 100),
                decimal_digit(n / 10),
                decimal_digit(n),
            ]);
        }
        self.put(&[
            decimal_digit(n / 10000),
            decimal_digit(n / 1000),
            decimal_digit(n / 100),
            decimal_digit(n / 10),
            decimal_digit(n),
        ]);
    }
}

fn decimal_digit(n: u32) -> u8
    ensures { result ≡ decimal_glyph n }
{
    b'0' + (n % 10) as u8
}
