// What an update's record holds behind its kind: that of a part of the ERLE estimator, and that of an estimator that reads the
// ring of spectra. No function asks anything of its caller.
#![tactic(auto)]

mod block;
mod ring;

pub use block::{BlockLengths, BlockLists};
pub use ring::{AveragedLists, RingLists};
