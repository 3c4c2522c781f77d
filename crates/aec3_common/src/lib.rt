// What every estimator shares: the bands, the refusal numbers, binary32 helpers, the settings, the judging of updates, and log2.
#![tactic(auto)]

pub mod binary32;
pub mod block;
pub mod counts;
pub mod entries;
pub mod judge;
pub mod log2;
pub mod refusal;
pub mod settings;
pub mod spectra;
pub mod streams;

pub use binary32::{clamp, larger, moved, smaller, sums_ok, values_ok};
pub use block::Block;
pub use log2::fast_approx_log2f;
pub use refusal::{Answer, Refusal};
pub use settings::{ErleLimits, ErleSettings, FilterLayout};

// Spectra have 65 bands, 0 to 64.
pub const FFT_LENGTH_BY_2: usize = 64;

pub const FFT_LENGTH_BY_2_PLUS_1: usize = 65;

// Samples in a block.
pub const BLOCK_SIZE: usize = 64;

// T, the render power that parts bands with energy from bands with little.
pub const X2_BAND_ENERGY_THRESHOLD: f32 = 44_015_068.0;

// T times 65, for a render sum over all bands.
pub const X2_SUM_ENERGY_THRESHOLD: f32 = 2_860_979_456.0;
