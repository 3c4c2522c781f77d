// The state of a trace, and what each record does to it but blocks, which change it in place (`trace_blocks`).
#![tactic(auto)]

pub mod records;

use aec3_common::Refusal;
use erle_estimator::ErleEstimator;
pub use records::{beginning, state_ok};

// The estimator; the printed band; the blocks of the whole trace so far, and the records; and how many rows of the latest block are yet to be
// written, which are its last ones. Before settings the estimator is that of settings that no start passes, with no channels. It is no Option:
// number 20, what stands and the rows all read the count of its channels, and each would have to take it out of one first, to read 0 of None.
#[derive(Clone, Copy, Debug)]
pub struct Trace {
    pub estimator: ErleEstimator,
    pub band: usize,
    pub blocks: u32,
    pub records: u32,
    pub rows_due: usize,
}

// Why feeding stopped: no whole record is left; the next line finds no room; a record was refused, and its line is written; or 20 turns the
// state away, and nothing is written.
#[derive(Clone, Copy, Debug, PartialEq, Eq)]
pub enum Stop {
    NoRecord,
    NoRoom,
    Refused(Refusal),
    BadState,
}
