// The groups of a slave call's stages by number (docs/STATE.md); what a group is for and its phases are enums of crate slave.
// Numbers, for as an enum that is decoded first a step of a receive takes 107.0 instructions for 101.3, one of a reply 99.6 for 95.1: the
// groups of the loop are then found by a table of jumps.
pub const CLEAR_STOPF: u8 = 0;

pub const STALE: u8 = 1;

pub const ARM: u8 = 2;

pub const POLL: u8 = 3;

pub const MATCH: u8 = 4;

pub const RECEIVE: u8 = 5;

pub const SEND: u8 = 6;

pub const CLEAR_AF: u8 = 7;

pub const ERRORS: u8 = 8;

pub const ABORT: u8 = 9;
