// Blocks of a trace in a row.
ghost use Rattle.std.specs.Prelude.{◌≡◌, ◌≤◌, true, false, length, IfSome, MatchOption};
ghost use Rattle.aec3_common.specs.Answers.{number_of};
ghost use Rattle.trace_records.specs.Frames.{record_in};
ghost use Rattle.trace_state.specs.Apply.{channels_of};
ghost use Rattle.trace_blocks.specs.Steps.{is_block_frame, Ready, Taken, Ran};

use crate::rows::put_rows;
use aec3_common::counts::one_more;
use aec3_common::{Block, Refusal};
use erle_estimator::ErleEstimator;
use trace_records::frames::{LENGTH_SIZE, frame};
use trace_records::records::MOST_VALUES;
use trace_records::{BlockBytes, Decoded, Standing, decode, flags_in};
use trace_state::Trace;

// The state after some rows and blocks, how many bytes are done with, and the place where the next line goes.
#[derive(Clone, Copy, Debug)]
pub struct Run {
    pub state: Trace,
    pub used: usize,
    pub at: usize,
}

// The block that the bytes begin with, where they begin with one that is whole and has its form beside what stands.
fn block_frame<'a>(standing: Standing, s: &'a [u8]) -> Option<BlockBytes<'a>>
    ensures block { MatchOption result (is_block_frame standing s.now ≡ false) (λ block. (is_block_frame standing s.now ≡ true) × (block.bytes.now ≡ record_in s.now)) }
    ensures channels { IfSome result (λ block. block.num_capture_channels ≡ standing.num_capture_channels) }
{
    let record = frame(s)?;
    let Ok(decoded) = decode(record) else {
        return None;
    };
    match decoded {
        Decoded::Block => standing.judge_block_form(record).ok(),
        Decoded::Settings(_) | Decoded::Reset(_) => None,
    }
}

// Reads a block in form into a table, and moves the estimator by it where no value of it is out of range. Number 6. The estimator is lent:
// handing it over by value would copy all of it for every block.
fn take_block(
    estimator: &mut ErleEstimator,
    active: &[[u32; 65]; 4],
    block: &BlockBytes,
    values: &mut [f32; MOST_VALUES],
) -> Result<(), Refusal>
    requires ready { Ready estimator.old }
    requires some { 1 ≤ channels_of estimator.old }
    requires as_many { block.now.num_capture_channels ≡ channels_of estimator.old }
    ensures { Taken estimator.old block.now.bytes.now (record { estimator = estimator.new; values = values.new; refused = number_of result }) }
{
    let n = block.num_capture_channels;
    block.read(values)?;
    let flags = flags_in(block.bytes, n);
    // Parts of the table are lent of one slice, since the table itself cannot be lent in two parts at once.
    let all = &values[..MOST_VALUES];
    let mid = 65 + 65 * n;
    let to = mid + 65 * n;
    estimator.advance(
        active,
        &Block {
            num_capture_channels: n,
            converged_filters: &flags[..n],
            x2: &all[..65],
            y2: &all[65..mid],
            e2: &all[mid..to],
        },
    );
    Ok(())
}

// Writes the rows that are due and takes the blocks that the bytes from a place on begin with, for as long as each is accepted and the rows of
// the one before find room. The state stands in one variable, and its estimator is changed in place.
pub fn run_blocks(mut state: Trace, input: &[u8], used: usize, out: &mut [u8], at: usize) -> Run
    requires { Ready state.estimator × (state.rows_due ≤ channels_of state.estimator) × (used ≤ length input.now) }
    ensures { Ran input.now (record { state = state; used = used; out = out.old; at = at }) (record { state = result.state; used = result.used; out = out.new; at = result.at }) }
{
    let standing = Standing::from(state.estimator.settings);
    // A trace has one section, so that none of these is looked at.
    let active = [[0; 65]; 4];
    let mut values = [0.0f32; MOST_VALUES];
    let mut used = used;
    let mut at = at;
    // No `for`: a block is looked at before it is taken, and one that is refused, or has to wait for room, stays in the bytes; an iterator would have
    // taken it.
    loop {
        let rows = put_rows(out, at, &state);
        at = rows.at;
        state.rows_due = rows.due;
        if rows.due > 0 {
            break;
        }
        let Some(block) = block_frame(standing, &input[used..]) else {
            break;
        };
        if take_block(&mut state.estimator, &active, &block, &mut values).is_err() {
            break;
        }
        state.blocks = one_more(state.blocks);
        state.records = one_more(state.records);
        state.rows_due = standing.num_capture_channels;
        used += LENGTH_SIZE + block.bytes.len();
    }
    Run { state, used, at }
}
