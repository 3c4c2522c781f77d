// The listing of a whole trace.
ghost use Rattle.std.specs.Prelude.{◌≡◌};
ghost use Rattle.trace.specs.Answers.{listed_answer, listed_over};

use crate::feeding::feed;
use trace_state::{Stop, beginning};
use trace_text::put_header;

// Whether there was room for all of the listing, and how much was written. No Option: how much was written counts either way.
#[derive(Clone, Copy, Debug, PartialEq, Eq)]
pub struct Listed {
    pub written: usize,
    pub fits: bool,
}

// The listing of a trace, and the rest of the slice as it was. Where there is no room for all, as many of its lines are written as find room.
pub fn list_trace(input: &[u8], out: &mut [u8]) -> Listed
    ensures value { result ≡ listed_answer input.now out.old }
    ensures out_after { out.new ≡ listed_over input.now out.old }
{
    let Some(at) = put_header(out, 0) else {
        return Listed {
            written: 0,
            fits: false,
        };
    };
    let fed = feed(beginning(), input, true, out, at);
    Listed {
        written: fed.at,
        fits: fed.stop != Stop::NoRoom,
    }
}
