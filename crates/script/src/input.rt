// The records of a script, read one after the other: a length in 4 bytes, and as many bytes.
ghost use Rattle.std.specs.Prelude.{◌≤◌, length, IfOk, IfSome};

use crate::fault::Malformed;
use encoding::word_at;
use std::io::Read;

// Reads until a buffer is full or no more bytes come; how many came. None come at the end of the input, or where the read fails.
// The loop stays: a read that fails ends the input here as its end does, but std's read_exact tries an interrupted read again, and does
// not tell an end before the first byte from one behind it.
pub fn read_full<R: Read>(reader: &mut R, buffer: &mut [u8]) -> usize
    ensures { result ≤ length buffer.new }
{
    let mut done = 0;
    while done < buffer.len() {
        match reader.read(&mut buffer[done..]) {
            Ok(0) | Err(_) => break,
            Ok(n) => done += n,
        }
    }
    done
}

// Reads the next record over a buffer, or finds none at the end of the input. One with a length that is less than the shortest, or
// that is longer than the buffer, is malformed, and no more is read of it.
pub fn next_record<'a, R: Read>(
    reader: &mut R,
    shortest: usize,
    buffer: &'a mut [u8],
) -> Result<Option<&'a [u8]>, Malformed>
    ensures long_enough { IfOk result (λ found. IfSome found (λ bytes. shortest ≤ length bytes.now)) }
    ensures fits { IfOk result (λ found. IfSome found (λ bytes. length bytes.now ≤ length buffer.old)) }
{
    let mut head = [0u8; 4];
    let got = read_full(reader, &mut head);
    if got == 0 {
        return Ok(None);
    }
    let length = word_at(&head, 0) as usize;
    if got < 4 || length < shortest || buffer.len() < length {
        return Err(Malformed);
    }
    let record = &mut buffer[..length];
    if read_full(reader, record) < length {
        return Err(Malformed);
    }
    Ok(Some(record))
}
