// What a block says, number by number: one layout for all calls. docs/STATE.md says which call uses what. (Numbers and no enums: any bytes
// may stand in a block, and its layout is part of the interface with C.)
ghost use Rattle.std.specs.Prelude.{◌≡◌};
ghost use Rattle.block.specs.Fields.{same_fields};

#[derive(Clone, Copy, PartialEq, Eq, Default)]
pub struct Fields {
    // The entry: 1 to 9, in the order of the C header.
    pub entry: u8,
    pub chip: u8,
    // A frame's option.
    pub option: u8,
    // The access that is owed: its group, which of the group's, and its phase.
    pub stage: u8,
    pub what: u8,
    pub phase: u8,
    // A direction, or settings that are true or false.
    pub marks: u8,
    // How the call is to end, in words: the error's number, here; the value returned, in `value`; and what else there is to know, in `extra`.
    pub error: u8,
    pub address: u16,
    // A run's number, its bytes left, and the place of the next of them.
    pub run: u16,
    pub left: u16,
    pub place: u16,
    // Saved words.
    pub word: u16,
    pub divider: u16,
    pub rise: u16,
    pub value: u16,
    // The bytes stored or sent.
    pub count: u32,
    // A second address, and the input clock.
    pub second: u8,
    pub mhz: u8,
    // The end's third word.
    pub extra: u16,
}

// Whether two blocks say the same. (A name for `==`, which the states and their images share with `specs/Fields.antt`.)
#[tactic(auto, unfolding(crate::specs::Fields::same_fields))]
pub fn same_fields(a: Fields, b: Fields) -> bool
    ensures { result ≡ same_fields a b }
{
    a == b
}
