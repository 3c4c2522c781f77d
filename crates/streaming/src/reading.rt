// Bytes that are held between readings, and text that goes out.
ghost use Rattle.std.specs.Prelude.{◌≡◌, ◌≢◌, ◌-◌, ◌≤◌, ◌<◌, length, take, drop, IfOk, IfErr, OnOk, OnErr};
ghost use Rattle.std.specs.Io.KnownBytes.{Appends, Keeps};
ghost use Rattle.streaming.specs.declared.failure.Failure.TheVariants.{NoRoom, Write as Failure·Write};
ghost use Rattle.streaming.specs.Feeding.{ReadOn};

use crate::failure::Failure;
use std::io::{ErrorKind, Read, Write};

// Which bytes of a table are held, from one on and below another; and whether the input ends with them. It may end while some are held, so that
// this is told beside them.
#[derive(Clone, Copy, Debug, PartialEq, Eq)]
pub struct Held {
    pub from: usize,
    pub to: usize,
    pub ended: bool,
}

// Moves the bytes that are held to the front, and reads more behind them: those that are held then are those before, followed by those that were
// read. If there are no more, the input has ended.
pub fn read_on<R: Read>(reader: &mut R, input: &mut [u8], held: Held) -> Result<Held, Failure>
    requires ordered { held.from ≤ held.to }
    requires within { held.to ≤ length input.old }
    ensures held { IfOk result (λ h. ReadOn (R.remaining reader.old) (R.remaining reader.new) (take (held.to - held.from) (drop held.from input.old)) input.new h) }
    ensures failed { OnErr result (Keeps (R.remaining reader.old) (R.remaining reader.new)) }
    ensures room { held.to - held.from < length input.old → IfErr result (λ e. e ≢ NoRoom) }
{
    input.copy_within(held.from..held.to, 0);
    let left = held.to - held.from;
    if left == input.len() {
        return Err(Failure::NoRoom);
    }
    match reader.read(&mut input[left..]) {
        Ok(count) => Ok(Held {
            from: 0,
            to: left + count,
            ended: count == 0,
        }),
        Err(e) => match e.kind() {
            ErrorKind::Interrupted => Ok(Held {
                from: 0,
                to: left,
                ended: false,
            }),
            _ => Err(Failure::Read),
        },
    }
}

// Writes a text out.
pub fn write_out<W: Write>(writer: &mut W, text: &[u8]) -> Result<(), Failure>
    ensures written { OnOk result (Appends (W.contents writer.old) (W.contents writer.new) text.now) }
    ensures failed { IfErr result (λ e. e ≡ Failure·Write) }
{
    writer.write_all(text).map_err(|_| Failure::Write)
}
