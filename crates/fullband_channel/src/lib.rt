// One channel of the fullband estimator: its instantaneous ERLE, its figure and its hold.
#![tactic(auto)]

pub mod channel;
pub mod instantaneous;
