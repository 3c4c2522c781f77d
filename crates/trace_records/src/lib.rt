// The records of a trace in bytes: where each begins and ends, what its bytes say, what stands after it, and which number turns it away.
#![tactic(auto)]

pub mod frames;
pub mod judge;
pub mod records;

pub use frames::{frame, frame_length, length_of};
pub use judge::Standing;
pub use records::{BlockBytes, Decoded, RecordKind, SettingsRecord, decode, flags_in};
