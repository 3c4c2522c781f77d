// A script, from standard input to standard output. Nothing of it lies on the heap.
use crate::fault::Malformed;
use crate::input::next_record;
use crate::record::Record;
use crate::text::Text;
use std::fmt::Write as _;
use std::io::{Read, Write};

// A record with a greater length is malformed, and so is one with a smaller length than that of a kind.
const LONGEST_RECORD: usize = 131_072;

const SHORTEST_RECORD: usize = 2;

// Text that is longer than this is written out before the next record is read.
const LONG_TEXT: usize = 32_768;

// Writes bytes out. A write that failed is passed over, and std's write_all does not say what was written before it: so nothing is
// promised of the writer. (A `BufWriter` would hand the failure on.)
pub fn write_out<W: Write>(writer: &mut W, bytes: &[u8]) {
    let _ = writer.write_all(bytes);
}

// Nothing says that the input ends, so the loop has a number of turns that no run uses up.
fn replay_records<R: Read, W: Write, F: FnMut(Record, &mut Text) -> Result<(), Malformed>>(
    reader: &mut R,
    writer: &mut W,
    buffer: &mut [u8],
    text: &mut Text,
    mut replay: F,
) -> Result<(), Malformed>
    requires { F.IsAlwaysCallable replay }
{
    for _ in 0..u64::MAX {
        let Some(bytes) = next_record(reader, SHORTEST_RECORD, buffer)? else {
            break;
        };
        replay(Record::new(bytes)?, text)?;
        if text.as_bytes().len() > LONG_TEXT {
            write_out(writer, text.as_bytes());
            text.clear();
        }
    }
    Ok(())
}

// Replays a script: for each record a closure is handed the record and the text to write behind. At a malformed record the run
// ends with the line `bad`.
pub fn replay_script<
    R: Read,
    W: Write,
    F: FnMut(Record, &mut Text) -> Result<(), Malformed> + Drop,
>(reader: &mut R, writer: &mut W, replay: F)
    requires { F.IsAlwaysCallable replay }
{
    let mut buffer = [0; LONGEST_RECORD];
    let mut text = Text::new();
    if replay_records(reader, writer, &mut buffer, &mut text, replay).is_err() {
        let _ = text.write_str("bad\n");
    }
    write_out(writer, text.as_bytes());
}

#[cfg(test)]
mod tests {
    use super::*;
    use std::test::Fail;

    #[test]
    fn replays_each_record_until_the_input_ends(rt: HostRuntime) -> Result<(), Fail> {
        let script = [3, 0, 0, 0, 0x30, 0x01, 9, 2, 0, 0, 0, 0x11, 0x01];
        let mut reader = script.as_slice();
        let mut written = Vec::new(rt.alloc());
        let show = |record: Record, text: &mut Text| -> Result<(), Malformed> {
            let _ = writeln!(text, "{} {}", record.kind, record.fields.rest.len());
            Ok(())
        };
        replay_script(&mut reader, &mut written, show);
        assert_eq!(rt; written.as_slice(), b"304 1\n273 0\n".as_slice());
        Ok(())
    }
}
