// What the programs that replay a script of library calls share: how a script's records are read and what lies in them, how the
// calls to an estimator are replayed, and how their lines are written. No function asks anything of its caller but that a
// closure or a bound that it is given may be called.
#![tactic(auto)]

pub mod call;
pub mod fault;
pub mod fields;
pub mod from_fields;
pub mod input;
pub mod line;
pub mod record;
pub mod replayed;
pub mod run;
pub mod table;
pub mod text;

pub use call::{Call, Reply};
pub use fault::{Fault, Malformed};
pub use fields::Fields;
pub use from_fields::{FromFields, ReadLists};
pub use input::{next_record, read_full};
pub use line::{Bits, Digits, Figures, Numbers, OrRefused, Row};
pub use record::Record;
pub use replayed::{Replayed, Standing};
pub use run::{replay_script, write_out};
pub use table::{BlockFloats, Flags, MOST_BLOCK_FLOATS, MOST_FLAGS, MOST_FLOATS, Spectra, Table};
pub use text::Text;
