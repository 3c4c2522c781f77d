// The text of a script's lines, on its way out. It lies in a table, so that it needs no heap.
ghost use Rattle.std.specs.Prelude.{◌≡◌, ◌+◌, ◌≤◌, ◌↔◌, [], ◌++◌, length, IsOk, OnErr};

use std::fmt;
use std::marker::Model;

// Room for the text that is kept and for that of one more record. No record of a program gives more than half of it: what finds no
// room is not written.
const ROOM: usize = 65_536;

#[derive(Debug, Drop)]
pub struct Text {
    bytes: [u8; ROOM],
    used: usize,
}

// A clause sees the bytes that were written.
impl Model for Text {
    ghost use Rattle.std.specs.Prelude.{◌≤◌, ℕ, List, take};

    ghost Value = { List ℕ };

    ghost view = { λ t. take t.used t.bytes };

    ghost invariant = { λ t. t.used ≤ 65536 };
}

impl Text {
    pub fn new() -> Text
        ensures { result ≡ [] }
    {
        Text {
            bytes: [0; ROOM],
            used: 0,
        }
    }

    pub fn as_bytes(&self) -> &[u8]
        ensures { result.now ≡ self.now }
    {
        &self.bytes[..self.used]
    }

    pub fn clear(&mut self)
        ensures { self.new ≡ [] }
    {
        self.used = 0;
    }
}

// All of a text, or, where there is no room for it, nothing.
impl fmt::Write for Text {
    ghost use Rattle.std.specs.Prelude.{◌≡◌, ◌+◌, ◌≤◌, ◌↔◌, ◌++◌, length, IsOk, OnErr};

    ghost write_str_gives = { λ text bytes after. after ≡ text ++ bytes };

    fn write_str(&mut self, s: &str) -> fmt::Result
        ensures ok { IsOk result → self.new ≡ self.old ++ s.now }
        ensures variant { IsOk result ↔ (length self.old + length s.now ≤ 65536) }
        ensures err { OnErr result (self.new ≡ self.old) }
    {
        let end = self.used + s.len();
        if ROOM < end {
            return Err(fmt::Error);
        }
        self.bytes[self.used..end].copy_from_slice(s.as_bytes());
        self.used = end;
        Ok(())
    }
}
