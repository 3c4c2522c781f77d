// The figures of the ERL estimator: the rules of one, an ERL and its hold, and the functions that apply them to all bands.
#![tactic(auto)]

pub mod bands;
pub mod figure;
