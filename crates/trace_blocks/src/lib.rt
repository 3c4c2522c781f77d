// The rows and the blocks of a trace, many in a row, changing the estimator in place.
#![tactic(auto)]

mod blocks;
mod rows;

pub use blocks::{Run, run_blocks};
pub use rows::figure_at;
