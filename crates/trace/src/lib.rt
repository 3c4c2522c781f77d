// A trace fed to the estimator, and its listing. No public function asks anything of its caller.
#![tactic(auto)]

pub mod feeding;
pub mod lister;
pub mod listing;

pub use feeding::{Fed, feed};
pub use lister::{Lister, print_listing};
pub use listing::{Listed, list_trace};
pub use trace_blocks::figure_at;
pub use trace_state::{Stop, Trace, beginning};
