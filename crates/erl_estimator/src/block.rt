// One block of the estimator's input, and which are turned away.
ghost use Rattle.std.specs.Prelude.{◌≡◌};
ghost use Rattle.aec3_common.specs.Answers.{number_of};
ghost use Rattle.erl_estimator.specs.Blocks.{with_block};
ghost use Rattle.erl_estimator.specs.Erl.{channels_ok, lengths_ok, update_refusal};

use aec3_common::Refusal;
use aec3_common::block::judge_values;
use aec3_common::refusal::lesser;
use aec3_common::settings::{capture_channels_ok, render_channels_ok};
use aec3_common::spectra::are_spectra;

// As a call lends it: the counts of channels, the capture channels' flags, and the spectra of all render and of all capture channels, one
// behind the other. Each spectrum has 65 numbers.
// The counts stand beside the slices since a call tells both: number 2 judges the counts, and number 5 the lengths by them.
#[derive(Clone, Copy, Debug)]
pub struct ErlBlock<'a> {
    pub num_capture_channels: usize,
    pub num_render_channels: usize,
    pub converged_filters: &'a [bool],
    pub render_spectra: &'a [f32],
    pub capture_spectra: &'a [f32],
}

impl ErlBlock<'_> {
    // Number 2.
    fn channels_ok(&self) -> bool
        ensures { result ≡ channels_ok self.now.num_capture_channels self.now.num_render_channels }
    {
        capture_channels_ok(self.num_capture_channels)
            & render_channels_ok(self.num_render_channels)
    }

    // Number 5.
    fn lengths_ok(&self) -> bool
        ensures { result ≡ with_block lengths_ok self.now }
    {
        (self.converged_filters.len() == self.num_capture_channels)
            & are_spectra(self.render_spectra.len(), self.num_render_channels)
            & are_spectra(self.capture_spectra.len(), self.num_capture_channels)
    }

    // The first of 2, 5 and 6.
    #[tactic(auto, using(aec3_common::proofs::Values::value_refusal_append), unfolding(crate::specs::Erl::update_refusal))]
    pub(crate) fn judge(&self) -> Result<(), Refusal>
        ensures { number_of result ≡ with_block update_refusal self.now }
    {
        if !self.channels_ok() {
            return Err(Refusal::BadChannelCount);
        }
        if !self.lengths_ok() {
            return Err(Refusal::BadLength);
        }
        lesser(
            judge_values(self.render_spectra),
            judge_values(self.capture_spectra),
        )
    }
}
