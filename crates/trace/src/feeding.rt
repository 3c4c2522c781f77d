// A trace fed to the estimator in pieces of any length.
ghost use Rattle.std.specs.Prelude.{◌≡◌, ◌≤◌, length as ListN·length};
ghost use Rattle.aec3_common.specs.Answers.{number};
ghost use Rattle.trace_state.specs.Feed.{refused_end, GivesListing};
ghost use Rattle.trace.specs.Answers.{told, answer_of, feed_answer, feed_over};

use aec3_common::Refusal;
use aec3_common::counts::one_more;
use trace_blocks::{Run, run_blocks};
use trace_records::Standing;
use trace_records::frames::{LENGTH_SIZE, frame};
use trace_state::records::after_record;
use trace_state::{Stop, Trace, state_ok};
use trace_text::put_refused;

// The state, how many bytes are done with, the place where the next line goes, and why it stopped.
#[derive(Clone, Copy, Debug)]
pub struct Fed {
    pub state: Trace,
    pub used: usize,
    pub at: usize,
    pub stop: Stop,
}

// A refused record: its line, if that finds room, and the state as it was. The run is lent: by
// value, and taken apart here, it was a copy of the state more and two tables of its size that the compiler clears, in every call of `feed`.
fn refuse(run: &Run, refusal: Refusal, out: &mut [u8]) -> Fed
    ensures value { told result ≡ answer_of (refused_end (record { state = run.now.state; used = run.now.used; out = out.old; at = run.now.at }) (number refusal)) }
    ensures out_after { out.new ≡ (refused_end (record { state = run.now.state; used = run.now.used; out = out.old; at = run.now.at }) (number refusal)).walk.out }
{
    match put_refused(out, run.at, refusal.into(), one_more(run.state.records)) {
        Some(next) => Fed {
            state: run.state,
            used: run.used,
            at: next,
            stop: Stop::Refused(refusal),
        },
        None => Fed {
            state: run.state,
            used: run.used,
            at: run.at,
            stop: Stop::NoRoom,
        },
    }
}

// Takes the records that the bytes begin with, and writes their lines from a place on, until it stops. It is told whether the trace ends with
// these bytes: if not, the front of a record is left for a later call, with more bytes behind it. Rows that find no room are due in the state; a
// refusal that finds none is found again in the bytes that are left. A refused record is not done with, and nothing is to be fed behind it. 20 is
// judged of the state that is handed in, and not again between records. The table and the place are no struct: both are the caller's, who may have
// written a header before the place, and it would be made for each call only.
pub fn feed(mut t: Trace, input: &[u8], ended: bool, out: &mut [u8], at: usize) -> Fed
    ensures value { told result ≡ feed_answer t input.now ended out.old at }
    ensures out_after { out.new ≡ feed_over t input.now ended out.old at }
    ensures used_bound { result.used ≤ ListN·length input.now }
    ensures gives_listing { GivesListing t input.now ended out.old at }
{
    if !state_ok(t) {
        return Fed {
            state: t,
            used: 0,
            at,
            stop: Stop::BadState,
        };
    }
    let mut used = 0;
    let mut at = at;
    // No `for`: a record is looked at before it is taken, and one that is refused, or has to wait for room, stays in the bytes; an iterator would
    // have taken it.
    loop {
        let run = run_blocks(t, input, used, out, at);
        used = run.used;
        at = run.at;
        if run.state.rows_due > 0 {
            return Fed {
                state: run.state,
                used,
                at,
                stop: Stop::NoRoom,
            };
        }
        let rest = &input[used..];
        if let Err(refusal) = Standing::from(run.state.estimator.settings).judge_ahead(
            rest, ended,
        ) {
            return refuse(&run, refusal, out);
        }
        let Some(record) = frame(rest) else {
            return Fed {
                state: run.state,
                used,
                at,
                stop: Stop::NoRecord,
            };
        };
        t = after_record(run.state, record);
        used += LENGTH_SIZE + record.len();
    }
}
