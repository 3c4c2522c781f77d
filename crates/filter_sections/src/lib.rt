// The sections of the adaptive filter, the subbands, and the bands' maxima.
#![tactic(auto)]

pub mod sections;
pub mod subbands;

pub use sections::section_boundaries;
pub use subbands::{SubbandBands, band_to_subband, max_erle, subband_bands};
