// Lists many traces from standard input, one behind the other, each with its length in four bytes before it; their listings go to
// standard output, one behind the other. For tests. It ends on every input, at a trace that is cut short or that is longer than the
// buffer with the line `bad`.
#![tactic(auto)]

use script::{Malformed, next_record, write_out};
use std::io::{Read, Write};
use trace::list_trace;

// Lists one trace; a listing that finds no room is cut off and has the line `no room` behind it.
fn list_one<W: Write>(writer: &mut W, trace: &[u8], out: &mut [u8]) {
    let listed = list_trace(trace, out);
    if let Some(listing) = out.get(..listed.written) {
        write_out(writer, listing);
    }
    if !listed.fits {
        write_out(writer, b"no room\n");
    }
}

// Lists each trace. Nothing says that the input ends, so the loop has a number of turns that no run uses up. No closure for script's replaying:
// that reads a record's kind and fields, which a trace has not.
fn list_all<R: Read, W: Write>(
    reader: &mut R,
    writer: &mut W,
    buffer: &mut [u8],
    out: &mut [u8],
) -> Result<(), Malformed> {
    for _ in 0..u64::MAX {
        let Some(trace) = next_record(reader, 0, buffer)? else {
            break;
        };
        list_one(writer, trace, out);
    }
    Ok(())
}

// The two tables are arrays, since the library of traces is tried here as it is used: without heap.
fn main(rt: HostRuntime) {
    let mut buffer = [0; 65536];
    let mut out = [0; 65536];
    let mut writer = rt.stdout();
    if list_all(&mut rt.stdin(), &mut writer, &mut buffer, &mut out).is_err() {
        write_out(&mut writer, b"bad\n");
    }
}
