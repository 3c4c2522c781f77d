// Echo return loss: the ERL of each band, and the time-domain ERL.
#![tactic(auto)]

mod block;
mod reduce;

ghost use Rattle.std.specs.Prelude.{◌≡◌};
ghost use Rattle.aec3_common.specs.Answers.{told};
ghost use Rattle.aec3_common.specs.Refusal.{accepted};
ghost use Rattle.erl_estimator.specs.Blocks.{with_block};
ghost use Rattle.erl_estimator.specs.Erl.{started, counted as Erl·counted, after_reset, learnt_from, updated as Erl·updated, update_refusal, update_answer};
ghost use Rattle.erl_estimator.specs.Range.{FiguresInRange};

use aec3_common::Answer;
use aec3_common::counts::one_more;
use aec3_common::spectra::copy_ends;
pub use block::ErlBlock;
use erl_bands::bands::{moved_erl, moved_holds, new_erls};
use erl_bands::figure::{Figure, MAX_ERL};
use reduce::{all_reduced, first_converged, reduced_from};

// The fields are the Rust's, by its names, and callers read `erl` and `erl_time_domain` here. So a hold lies apart from its ERL, though the
// rules go by both (`Figure`); and bands 0 and 64 have no hold.
#[derive(Clone, Copy, Debug, PartialEq)]
pub struct ErlEstimator {
    pub erl: [f32; 65],
    pub hold_counters: [i32; 63],
    pub erl_time_domain: f32,
    pub hold_counter_time_domain: i32,
    pub startup_phase_length_blocks: u32,
    pub blocks_since_reset: u32,
}

impl ErlEstimator {
    // A start. No call to it is turned away. After any later calls every ERL is a number from 0.01 to 1,000.
    pub fn new(startup_phase_length_blocks: u32) -> ErlEstimator
        ensures value { result ≡ started startup_phase_length_blocks }
        ensures figures_in_range { FiguresInRange result }
    {
        ErlEstimator {
            erl: [MAX_ERL; 65],
            hold_counters: [0; 63],
            erl_time_domain: MAX_ERL,
            hold_counter_time_domain: 0,
            startup_phase_length_blocks,
            blocks_since_reset: 0,
        }
    }

    // Clears the block count; the figures stay.
    #[tactic(auto, unfolding(crate::specs::Erl::after_reset))]
    pub fn reset(mut self) -> ErlEstimator
        ensures { result ≡ after_reset self }
    {
        self.blocks_since_reset = 0;
        self
    }

    // One block. 2, 5 and 6 are turned away.
    #[tactic(auto, unfolding(crate::specs::Erl::update_answer))]
    pub fn update(self, block: &ErlBlock) -> Answer<ErlEstimator>
        ensures { told result ≡ with_block (update_answer self) block.now }
    {
        let outcome = block.judge();
        let state = if outcome.is_ok() {
            self.updated(block)
        } else {
            self
        };
        Answer { state, outcome }
    }

    #[tactic(auto, using(std::proofs::lemmas::Bool::Decides::nat_tests), unfolding(crate::specs::Erl::update_refusal))]
    fn updated(self, block: &ErlBlock) -> ErlEstimator
        requires { with_block update_refusal block.now ≡ accepted }
        ensures { result ≡ Erl·updated self block.now.num_render_channels block.now.converged_filters.now block.now.render_spectra.now block.now.capture_spectra.now }
    {
        let counted = self.counted();
        let Some(first) = first_converged(block.converged_filters) else {
            return counted;
        };
        if counted.blocks_since_reset < counted.startup_phase_length_blocks {
            return counted;
        }
        let render = all_reduced(block.render_spectra, block.num_render_channels);
        let capture = reduced_from(block.capture_spectra, block.converged_filters, first);
        counted.learnt_from(&render, &capture)
    }

    fn counted(mut self) -> ErlEstimator
        ensures { result ≡ Erl·counted self }
    {
        self.blocks_since_reset = one_more(self.blocks_since_reset);
        self
    }

    // Every figure one block later, by the reduced spectra. The arrays are made anew: a copy changed in place took longer.
    fn learnt_from(self, render: &[f32; 65], capture: &[f32; 65]) -> ErlEstimator
        ensures { result ≡ learnt_from self render.now capture.now }
    {
        let before = Figure {
            erl: self.erl_time_domain,
            hold: self.hold_counter_time_domain,
        };
        let time = before.time_domain_after(render, capture);
        let new = new_erls(render, capture);
        let hold_counters = moved_holds(&self.hold_counters, &self.erl, &new);
        let mut erl = moved_erl(&self.erl, &hold_counters, &new);
        copy_ends(&mut erl);
        ErlEstimator {
            erl,
            hold_counters,
            erl_time_domain: time.erl,
            hold_counter_time_domain: time.hold,
            ..self
        }
    }
}
