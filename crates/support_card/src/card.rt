// The support card put into a buffer.
ghost use Rattle.std.specs.Prelude.{◌≡◌, ◌+◌, ◌≤◌, length};
ghost use Rattle.registers.specs.Chips.{chips};
ghost use Rattle.bench_text.specs.Puts.{Puts};
ghost use Rattle.support_card.specs.CardText.{chip_text, role_text, name_text, line_text, side_text, both_text, card_text};

use bench_text::Text;
use registers::Chip;

#[tactic(auto, unfolding(crate::specs::CardText::chip_text))]
fn chip_text(chip: Chip) -> [u8; 10]
    ensures { result ≡ chip_text chip }
{
    match (chip.i2c_v3, chip.ch32v4) {
        (true, true) => *b"3 both    ",
        (true, false) => *b"1 i2c_v3  ",
        (false, true) => *b"2 ch32v4  ",
        (false, false) => *b"0 neither ",
    }
}

// A master (`nack`) or a slave.
#[tactic(auto, unfolding(crate::specs::CardText::role_text))]
fn role_text(nack: bool) -> [u8; 7]
    ensures { result ≡ role_text nack }
{
    if nack { *b"master " } else { *b"slave  " }
}

// By a class's number, since `words_of` takes one, and 0 for none. The texts are padded here, since a width is of `format!`,
// whose `String` can fail.
#[tactic(auto, unfolding(crate::specs::CardText::name_text))]
fn name_text(class: u8) -> [u8; 12]
    ensures { result ≡ name_text class }
{
    match class {
        1 => *b"Bus         ",
        2 => *b"Arbitration ",
        3 => *b"Nack        ",
        4 => *b"Timeout     ",
        5 => *b"Crc         ",
        6 => *b"Overrun     ",
        _ => *b"none        ",
    }
}

// A class and its number of words.
fn put_line(text: &mut Text, chip: Chip, nack: bool, class: u8)
    requires { text.old.at + 35 ≤ length text.old.out.now }
    ensures puts { Puts text.old.out.now text.old.at (line_text chip nack class) text.new.at text.new.out.now }
    ensures upper_bound { text.new.at ≤ text.old.at + 35 }
    ensures same_reference { text.new.out.ghost_name ≡ text.old.out.ghost_name }
{
    text.put(&chip_text(chip));
    text.put(&role_text(nack));
    text.put(&name_text(class));
    text.put_decimal(class_count::words_of(class, chip, nack));
    text.put(b"\n");
}

// The classes in the order of decision, and none.
fn put_side(text: &mut Text, chip: Chip, nack: bool)
    requires { text.old.at + 245 ≤ length text.old.out.now }
    ensures puts { Puts text.old.out.now text.old.at (side_text chip nack) text.new.at text.new.out.now }
    ensures upper_bound { text.new.at ≤ text.old.at + 245 }
    ensures same_reference { text.new.out.ghost_name ≡ text.old.out.ghost_name }
{
    let classes = [2, 1, 4, 5, 6, 3, 0];
    for class in &classes {
        put_line(text, chip, nack, *class);
    }
}

fn put_both(text: &mut Text, chip: Chip)
    requires { text.old.at + 490 ≤ length text.old.out.now }
    ensures puts { Puts text.old.out.now text.old.at (both_text chip) text.new.at text.new.out.now }
    ensures upper_bound { text.new.at ≤ text.old.at + 490 }
    ensures same_reference { text.new.out.ghost_name ≡ text.old.out.ghost_name }
{
    put_side(text, chip, true);
    put_side(text, chip, false);
}

// By number: 1 for i2c_v3 plus 2 for ch32v4.
fn chips() -> [Chip; 4]
    ensures { result ≡ chips }
{
    [(false, false), (true, false), (false, true), (true, true)].map(|(i2c_v3, ch32v4)| Chip {
        i2c_v3,
        ch32v4,
    })
}

// The card. Put into a lent buffer, since that cannot fail, as a `String` can.
pub fn put_card(text: &mut Text)
    requires { text.old.at + 1995 ≤ length text.old.out.now }
    ensures puts { Puts text.old.out.now text.old.at card_text text.new.at text.new.out.now }
    ensures upper_bound { text.new.at ≤ text.old.at + 1995 }
    ensures same_length { length text.new.out.now ≡ length text.old.out.now }
    ensures same_reference { text.new.out.ghost_name ≡ text.old.out.ghost_name }
{
    text.put(b"chip      side   class       words\n");
    for chip in &chips() {
        put_both(text, *chip);
    }
}
