// What ends a run before its time, and how it is told.
use std::error::Error;
use std::fmt;
use std::io::Write;

// A read or a write failed; a table has no room for what has to be held in one; or the input did not end.
#[derive(Clone, Copy, Debug, PartialEq, Eq)]
pub enum Failure {
    Read,
    Write,
    NoRoom,
    Endless,
}

impl fmt::Display for Failure {
    fn fmt<W: fmt::Write>(&self, f: &mut fmt::Formatter<W>) -> fmt::Result {
        f.write_str(match self {
            Failure::Read => "standard input cannot be read",
            Failure::Write => "standard output cannot be written",
            Failure::NoRoom => "a table has no room for a record or a line",
            Failure::Endless => "the input does not end",
        })
    }
}

impl Error for Failure {}

// The longest line has so many bytes behind the program's name, or fewer.
const LINE: usize = 64;

// One line: which program, and what failed, in one piece each, so that no other line comes between the words. That this line cannot be written
// can be told nowhere.
pub fn tell<W: Write>(writer: &mut W, program: &[u8], failure: Failure) {
    if writer.write_all(program).is_err() {
        return;
    }
    let mut line = [0; LINE];
    let mut room = line.as_mut_slice();
    let _ = writeln!(room, ": {failure}");
    let end = LINE.saturating_sub(room.len());
    let _ = writer.write_all(&line[..end]);
}
