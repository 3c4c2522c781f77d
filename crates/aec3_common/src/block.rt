// One block of an estimator's input, and which are turned away.
ghost use Rattle.std.specs.Prelude.{◌≡◌, ◌++◌};
ghost use Rattle.aec3_common.specs.Answers.{number_of};
ghost use Rattle.aec3_common.specs.Blocks.{with_block};
ghost use Rattle.aec3_common.specs.Calls.{lengths_ok, values_in_range, value_refusal, call_refusal};
ghost use Rattle.aec3_common.specs.Spectra.{part};

use crate::binary32::values_ok;
use crate::refusal::{Refusal, lesser};
use crate::spectra::{are_spectra, part};

// As a call lends it: the count of capture channels, their flags, the render power, and the capture and the residual power of all
// channels, one behind the other. Each spectrum has 65 numbers.
#[derive(Clone, Copy, Debug)]
pub struct Block<'a> {
    pub num_capture_channels: usize,
    pub converged_filters: &'a [bool],
    pub x2: &'a [f32],
    pub y2: &'a [f32],
    pub e2: &'a [f32],
}

// Number 6, of values that a call lends. Of several lists it is the lesser of what it says of each.
#[tactic(auto, unfolding(crate::specs::Calls::value_refusal))]
pub fn judge_values(values: &[f32]) -> Result<(), Refusal>
    ensures { number_of result ≡ value_refusal values.now }
{
    if values_ok(values) {
        Ok(())
    } else {
        Err(Refusal::BadValue)
    }
}

impl Block<'_> {
    // Number 5.
    pub fn lengths_ok(&self) -> bool
        ensures { result ≡ with_block lengths_ok self.now }
    {
        (self.converged_filters.len() == self.num_capture_channels)
            & (self.x2.len() == 65)
            & are_spectra(self.y2.len(), self.num_capture_channels)
            & are_spectra(self.e2.len(), self.num_capture_channels)
    }

    // Whether number 6 lets pass.
    pub fn values_ok(&self) -> bool
        ensures { result ≡ values_in_range self.now.x2.now self.now.y2.now self.now.e2.now }
    {
        values_ok(self.x2) & values_ok(self.y2) & values_ok(self.e2)
    }

    // Number 6.
    #[tactic(auto, using(crate::proofs::Values::value_refusal_append))]
    pub fn judge_values(&self) -> Result<(), Refusal>
        ensures { number_of result ≡ value_refusal (self.now.x2.now ++ self.now.y2.now ++ self.now.e2.now) }
    {
        lesser(
            lesser(judge_values(self.x2), judge_values(self.y2)),
            judge_values(self.e2),
        )
    }

    // The first of 20, 21, 5 and 6, for a caller that has judged its state, which has `count` channels.
    #[tactic(auto, unfolding(crate::specs::Calls::call_refusal))]
    pub fn judge(&self, state_ok: bool, count: usize) -> Result<(), Refusal>
        ensures { number_of result ≡ with_block (call_refusal state_ok count) self.now }
    {
        if !state_ok {
            return Err(Refusal::BadState);
        }
        if self.num_capture_channels != count {
            return Err(Refusal::OtherChannelCount);
        }
        if !self.lengths_ok() {
            return Err(Refusal::BadLength);
        }
        self.judge_values()
    }

    // A channel's capture power.
    pub fn own_y2(&self, ch: usize) -> &[f32]
        ensures { result.now ≡ part self.now.y2.now ch }
    {
        part(self.y2, ch)
    }

    // Its residual power.
    pub fn own_e2(&self, ch: usize) -> &[f32]
        ensures { result.now ≡ part self.now.e2.now ch }
    {
        part(self.e2, ch)
    }
}
