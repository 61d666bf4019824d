// What is printed: a line for each access, for the bytes arrived, for the end, and for a bad line.
ghost use Rattle.std.specs.Prelude.{◌≡◌, ◌+◌, ◌≤◌, length};
ghost use Rattle.bench_text.specs.Puts.{Puts};
ghost use Rattle.bench_text.specs.Shown.{name_text, value_text, used_text, read_text, write_text, clock_text, bad_text, arrived_text, end_text, open_text};

use crate::put::Text;
use registers::Register;

impl Text<'_> {
    pub fn put_name(&mut self, register: Register)
        requires { self.old.at + 6 ≤ length self.old.out.now }
        ensures puts { Puts self.old.out.now self.old.at (name_text register) self.new.at self.new.out.now }
        ensures upper_bound { self.new.at ≤ self.old.at + 6 }
        ensures same_reference { self.new.out.ghost_name ≡ self.old.out.ghost_name }
    {
        match register {
            Register::Ctlr1 => self.put(b"CTLR1"),
            Register::Ctlr2 => self.put(b"CTLR2"),
            Register::Oaddr1 => self.put(b"OADDR1"),
            Register::Oaddr2 => self.put(b"OADDR2"),
            Register::Datar => self.put(b"DATAR"),
            Register::Star1 => self.put(b"STAR1"),
            Register::Star2 => self.put(b"STAR2"),
            Register::Ckcfgr => self.put(b"CKCFGR"),
            Register::Rtr => self.put(b"RTR"),
        }
    }

    // A comma, a word and the line feed.
    fn put_value(&mut self, value: u16)
        requires { self.old.at + 6 ≤ length self.old.out.now }
        ensures puts { Puts self.old.out.now self.old.at (value_text value) self.new.at self.new.out.now }
        ensures same_reference { self.new.out.ghost_name ≡ self.old.out.ghost_name }
    {
        self.put(b",");
        self.put_word(value);
        self.put(b"\n");
    }

    // A read that was answered.
    pub fn put_read(&mut self, register: Register, answer: u16)
        requires { self.old.at + 14 ≤ length self.old.out.now }
        ensures puts { Puts self.old.out.now self.old.at (read_text register answer) self.new.at self.new.out.now }
        ensures upper_bound { self.new.at ≤ self.old.at + 14 }
        ensures same_reference { self.new.out.ghost_name ≡ self.old.out.ghost_name }
    {
        self.put(b"r,");
        self.put_name(register);
        self.put_value(answer);
    }

    pub fn put_write(&mut self, register: Register, value: u16)
        requires { self.old.at + 14 ≤ length self.old.out.now }
        ensures puts { Puts self.old.out.now self.old.at (write_text register value) self.new.at self.new.out.now }
        ensures upper_bound { self.new.at ≤ self.old.at + 14 }
        ensures same_reference { self.new.out.ghost_name ≡ self.old.out.ghost_name }
    {
        self.put(b"w,");
        self.put_name(register);
        self.put_value(value);
    }

    // A question to the clock that was answered.
    pub fn put_clock(&mut self, answer: u16)
        requires { self.old.at + 14 ≤ length self.old.out.now }
        ensures puts { Puts self.old.out.now self.old.at (clock_text answer) self.new.at self.new.out.now }
        ensures upper_bound { self.new.at ≤ self.old.at + 14 }
        ensures same_reference { self.new.out.ghost_name ≡ self.old.out.ghost_name }
    {
        self.put(b"c,clock");
        self.put_value(answer);
    }

    // The bytes that arrived.
    pub fn put_arrived(&mut self, bytes: &[u8])
        requires { self.old.at + 3 + (length bytes.now + length bytes.now) ≤ length self.old.out.now }
        ensures puts { Puts self.old.out.now self.old.at (arrived_text bytes.now) self.new.at self.new.out.now }
        ensures value { self.new.at ≡ self.old.at + 3 + (length bytes.now + length bytes.now) }
        ensures same_length { length self.new.out.now ≡ length self.old.out.now }
        ensures same_reference { self.new.out.ghost_name ≡ self.old.out.ghost_name }
    {
        self.put(b"d,");
        self.put_hex(bytes);
        self.put(b"\n");
    }

    // The answers used and the error flags, behind a call's number or `open`.
    fn put_used(&mut self, used: u32, flags: u16)
        requires { self.old.at + 12 ≤ length self.old.out.now }
        ensures puts { Puts self.old.out.now self.old.at (used_text used flags) self.new.at self.new.out.now }
        ensures upper_bound { self.new.at ≤ self.old.at + 12 }
        ensures same_reference { self.new.out.ghost_name ≡ self.old.out.ghost_name }
    {
        self.put(b",");
        self.put_decimal(used);
        self.put_value(flags);
    }

    pub fn put_end(&mut self, number: u8, used: u32, flags: u16)
        requires { self.old.at + 21 ≤ length self.old.out.now }
        ensures puts { Puts self.old.out.now self.old.at (end_text number used flags) self.new.at self.new.out.now }
        ensures upper_bound { self.new.at ≤ self.old.at + 21 }
        ensures same_reference { self.new.out.ghost_name ≡ self.old.out.ghost_name }
    {
        self.put(b"end,");
        self.put_decimal(number as u32);
        self.put_used(used, flags);
    }

    pub fn put_open(&mut self, used: u32)
        requires { self.old.at + 20 ≤ length self.old.out.now }
        ensures puts { Puts self.old.out.now self.old.at (open_text used) self.new.at self.new.out.now }
        ensures upper_bound { self.new.at ≤ self.old.at + 20 }
        ensures same_reference { self.new.out.ghost_name ≡ self.old.out.ghost_name }
    {
        self.put(b"end,open");
        self.put_used(used, 0);
    }

    pub fn put_bad(&mut self, line: u32)
        requires { self.old.at + 10 ≤ length self.old.out.now }
        ensures puts { Puts self.old.out.now self.old.at (bad_text line) self.new.at self.new.out.now }
        ensures upper_bound { self.new.at ≤ self.old.at + 10 }
        ensures same_reference { self.new.out.ghost_name ≡ self.old.out.ghost_name }
    {
        self.put(b"bad,");
        self.put_decimal(line);
        self.put(b"\n");
    }
}
