// The bands of the subband estimator: the rules of one band, and what applies them to a table of 65.
#![tactic(auto)]

mod band;
pub mod onsets;
pub mod streams;
pub mod sums;
