// A trace fed to its listing, for the loop that reads the one and writes the other.
ghost use Rattle.std.specs.Prelude.{◌≡◌, ◌≢◌, ◌≤◌, length, IfSome, IfErr, OnOk};
ghost use Rattle.std.specs.Io.KnownBytes.{Appends};
ghost use Rattle.streaming.specs.declared.failure.Failure.TheVariants.{NoRoom, Read as Failure·Read};
ghost use Rattle.streaming.specs.Feeding.{most_held, Begun};
ghost use Rattle.trace_state.specs.Feed.{why};
ghost use Rattle.trace_state.specs.Listing.{listing};
ghost use Rattle.trace_state.proofs.Staying.{Stays};
ghost use Rattle.trace.specs.Answers.{wanted};
ghost use Rattle.trace.specs.Lister.{longest_line, text_ahead};

use crate::feeding::feed;
use std::io::{Read, Write};
use streaming::{Failure, Fed, Stop, Transducer, run};
use trace_state::{Trace, beginning};
use trace_text::put_header;

// The state of a trace, and whether the header is still to be written: a trace that has just begun may have its header behind it, so this is told apart.
#[derive(Clone, Copy, Debug)]
pub struct Lister {
    pub trace: Trace,
    pub header_due: bool,
}

// What feeding wants next. No From: both types are other crates'.
fn wanted_next(stop: trace_state::Stop) -> Stop
    ensures { result ≡ wanted (why stop) }
{
    match stop {
        trace_state::Stop::NoRecord => Stop::WantsBytes,
        trace_state::Stop::NoRoom => Stop::WantsRoom,
        trace_state::Stop::Refused(_) | trace_state::Stop::BadState => Stop::Done,
    }
}

impl Transducer for Lister {
    ghost whole = { listing };

    ghost least = { longest_line };

    ghost ahead = { text_ahead };

    ghost sound = { λ l. Stays l.trace };

    fn start() -> Lister {
        Lister {
            trace: beginning(),
            header_due: true,
        }
    }

    fn feed(&mut self, input: &[u8], ended: bool, out: &mut [u8], at: usize) -> Fed {
        let mut begin = at;
        if self.header_due {
            let Some(behind) = put_header(out, at) else {
                return Fed {
                    used: 0,
                    at,
                    stop: Stop::WantsRoom,
                };
            };
            begin = behind;
            self.header_due = false;
        }
        let fed = feed(self.trace, input, ended, out, begin);
        self.trace = fed.state;
        Fed {
            used: fed.used,
            at: fed.at,
            stop: wanted_next(fed.stop),
        }
    }
}

// Lists the trace that a reader gives, over two lent tables: one for the bytes that are read and not done with, one for the lines that are not written
// out yet.
//
// For every way of cutting the bytes of a trace into pieces: each read gives as many as it likes, and no clause asks how many.
// Feeding them one after the other, each with what the last left over: `run` does, by `read_on`, whose contract says so.
// And then ending: once the reader has none left.
// Writes exactly the listing of the whole, the cut-off last record included: `whole`, of a run that does not fail.
// Whatever the size of the table of lines: `whole` asks nothing of it; and from the size of the longest line on it always has room: `room`.
// A failed read is no end: what went out begins the listing of the bytes that were read, whatever would have followed: `begun`.
pub fn print_listing<R: Read, W: Write>(
    reader: &mut R,
    writer: &mut W,
    input: &mut [u8],
    out: &mut [u8],
) -> Result<(), Failure>
    ensures whole { OnOk result (IfSome (R.remaining reader.old) (λ bytes. Appends (W.contents writer.old) (W.contents writer.new) (listing bytes))) }
    ensures begun { IfErr result (λ e. e ≡ Failure·Read → IfSome (R.remaining reader.old) (Begun (R.remaining reader.new) (W.contents writer.old) (W.contents writer.new) listing)) }
    ensures room { most_held ≤ length input.old → longest_line ≤ length out.old → IfErr result (λ e. e ≢ NoRoom) }
{
    run::<Lister, R, W>(reader, writer, input, out)
}
