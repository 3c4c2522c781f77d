// Programs that make a text of a row of records: the input is read in pieces of any length, fed, and what is written of it goes out piece by piece.
#![tactic(auto)]

mod failure;
mod reading;
mod transducer;

pub use failure::{Failure, tell};
pub use transducer::{Fed, Stop, Transducer, run};
