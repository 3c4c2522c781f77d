// What a channel learns about the sections of its filter, subband by subband, and the factors that come of it.
#![tactic(auto)]

mod learning;
mod lessons;
mod streams;
mod subbands;

ghost use Rattle.std.specs.Prelude.{◌≡◌};
ghost use Rattle.correction_factors.specs.Factors.{fresh_factors, lesson_of, learnt};

use aec3_common::ErleLimits;
use learning::{count_updates, move_estimates, move_factors, move_references};
pub use lessons::SubbandBlock;
pub use streams::{band_factors, copy_last, correct_stream};
pub use subbands::subband_sums;

// Estimates and factors stand section by section, eight times six subbands; references and updates for each subband. Four tables of their own
// and flat ones: definitions number the entries by one index, and each table is moved, read and printed by itself.
#[derive(Clone, Copy, Debug)]
pub struct CorrectionFactors {
    pub erle_estimators: [f32; 48],
    pub erle_ref: [f32; 6],
    pub correction_factors: [f32; 48],
    pub num_updates: [u32; 6],
}

impl CorrectionFactors {
    #[tactic(auto, unfolding(crate::specs::Factors::fresh_factors, aec3_common::specs::Lists::tab))]
    pub fn new(min: f32) -> CorrectionFactors
        ensures { result ≡ fresh_factors min }
    {
        CorrectionFactors {
            erle_estimators: [min; 48],
            erle_ref: [min; 6],
            correction_factors: [1.0; 48],
            num_updates: [0; 6],
        }
    }

    // One update of a converged channel, by what it learns from.
    pub fn update(mut self, limits: ErleLimits, block: &SubbandBlock) -> CorrectionFactors
        ensures { result ≡ learnt limits.min limits.max_l limits.max_h (lesson_of block.now.num_sections block.now.active.now block.now.x2.now block.now.y2.now block.now.e2.now) self }
    {
        let lessons = block.lessons();
        count_updates(&mut self.num_updates, &lessons);
        move_estimates(&mut self.erle_estimators, limits, &lessons);
        move_references(&mut self.erle_ref, limits, &lessons);
        move_factors(
            &mut self.correction_factors,
            &self.erle_estimators,
            &self.erle_ref,
            &self.num_updates,
            &lessons,
        );
        self
    }
}
