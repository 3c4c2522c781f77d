// Fullband ERLE: one log2 figure over all bands and channels, in decibels too, and the quality of each channel's linear filter.
#![tactic(auto)]

mod settings;

ghost use Rattle.std.specs.Prelude.{◌≡◌, true, not, ◌≤◌, take, IfOk};
ghost use Rattle.std.specs.List.{list_all};
ghost use Rattle.aec3_common.specs.Answers.{number_of, numbered, told};
ghost use Rattle.aec3_common.specs.Blocks.{with_block};
ghost use Rattle.aec3_common.specs.Refusal.{accepted};
ghost use Rattle.fullband_channel.specs.Channel.{channel_ok};
ghost use Rattle.fullband_erle_estimator.specs.FullBand.{state_ok, state_refusal, started as FullBand·started, start_answer, reset_answer, update_refusal, updated as FullBand·updated, update_answer, fullband_log2, decibels as FullBand·decibels, log2_answer, decibel_answer, quality_answer};
ghost use Rattle.fullband_erle_estimator.specs.Runs.{NeverBadState, FiguresNotBelowMinimum, FiguresAreNumbers};
ghost use Rattle.fullband_erle_estimator.specs.Steps.{loud_for};

use aec3_common::spectra::sum;
use aec3_common::{Answer, Block, Refusal, X2_SUM_ENERGY_THRESHOLD, smaller};
pub use fullband_channel::channel::FullBandChannel;
pub use fullband_channel::instantaneous::{ErleInstantaneous, OptionalNumber, QualityClamps};
pub use settings::FullBandSettings;

// What turns a log2 figure into decibels.
const DECIBEL_FACTOR: f32 = 3.0;

#[derive(Clone, Copy, Debug)]
pub struct FullBandErleEstimator {
    pub settings: FullBandSettings,
    pub channels: [FullBandChannel; 4],
}

// All four records as a reset fills them.
#[tactic(auto, unfolding(crate::specs::FullBand::started, aec3_common::specs::Lists::tab))]
fn started(settings: FullBandSettings) -> FullBandErleEstimator
    ensures { result ≡ FullBand·started settings }
{
    let channel = FullBandChannel::new(settings.min_erle_log2());
    FullBandErleEstimator {
        settings,
        channels: [channel; 4],
    }
}

#[tactic(auto, unfolding(crate::specs::FullBand::decibels))]
fn decibels(log2: f32) -> f32
    ensures { result ≡ FullBand·decibels log2 }
{
    DECIBEL_FACTOR * log2
}

fn none_converged(converged_filters: &[bool]) -> bool
    ensures { result ≡ list_all not converged_filters.now }
{
    converged_filters.iter().all(|&converged| !converged)
}

// Whether the render sum is above its threshold. It is not added up where no channel would look at it.
#[tactic(auto, unfolding(crate::specs::Steps::loud_for))]
pub fn is_loud(block: &Block) -> bool
    ensures { result ≡ loud_for block.now.converged_filters.now block.now.x2.now }
{
    !none_converged(block.converged_filters) && sum(block.x2) > X2_SUM_ENERGY_THRESHOLD
}

impl FullBandErleEstimator {
    // A start. 1 and 2 are turned away. After an accepted start no later call is turned away under 20; figures, extremes and
    // qualities are numbers, and no log2 figure is below log2 of (the minimum plus 0.001).
    #[tactic(auto, unfolding(crate::specs::FullBand::start_answer), using(crate::proofs::Figures::promises))]
    pub fn new(settings: FullBandSettings) -> Result<FullBandErleEstimator, Refusal>
        ensures value { numbered result ≡ start_answer settings }
        ensures never_bad_state { IfOk result NeverBadState }
        ensures figures_not_below_minimum { IfOk result (FiguresNotBelowMinimum settings) }
        ensures figures_are_numbers { IfOk result (FiguresAreNumbers settings) }
    {
        settings.judge()?;
        Ok(started(settings))
    }

    // The records of the state's channels, of which there are no more than four; those behind them are not judged.
    fn own_channels(&self) -> &[FullBandChannel]
        ensures { result.now ≡ take self.now.settings.num_capture_channels self.now.channels }
    {
        let count = self.settings.num_capture_channels.min(self.channels.len());
        &self.channels[..count]
    }

    // Whether each of the state's channels passes number 20.
    fn channels_ok(&self) -> bool
        ensures { result ≡ list_all channel_ok (take self.now.settings.num_capture_channels self.now.channels) }
    {
        self.own_channels().iter().all(|channel| channel.ok())
    }

    // Whether number 20 lets the state pass.
    #[tactic(auto, unfolding(crate::specs::FullBand::state_ok))]
    fn ok(&self) -> bool
        ensures { result ≡ state_ok self.now }
    {
        self.settings.judge().is_ok() && self.channels_ok()
    }

    // Number 20.
    #[tactic(auto, unfolding(crate::specs::FullBand::state_refusal))]
    fn judge(&self) -> Result<(), Refusal>
        ensures { number_of result ≡ state_refusal self.now }
    {
        if self.ok() {
            Ok(())
        } else {
            Err(Refusal::BadState)
        }
    }

    // Every record as after a start. 20 is turned away.
    #[tactic(auto, unfolding(crate::specs::FullBand::reset_answer))]
    pub fn reset(self) -> Answer<FullBandErleEstimator>
        ensures { told result ≡ reset_answer self }
    {
        let outcome = self.judge();
        let state = if outcome.is_ok() {
            started(self.settings)
        } else {
            self
        };
        Answer { state, outcome }
    }

    // One block. 20, 21, 5 and 6 are turned away.
    #[tactic(auto, unfolding(crate::specs::FullBand::update_answer, crate::specs::FullBand::update_refusal))]
    pub fn update(self, block: &Block) -> Answer<FullBandErleEstimator>
        ensures { told result ≡ with_block (update_answer self) block.now }
    {
        let outcome = block.judge(self.ok(), self.settings.num_capture_channels);
        let state = if outcome.is_ok() {
            self.updated(block)
        } else {
            self
        };
        Answer { state, outcome }
    }

    // What an accepted block makes of the state.
    fn updated(mut self, block: &Block) -> FullBandErleEstimator
        requires { with_block (update_refusal self) block.now ≡ accepted }
        ensures { result ≡ FullBand·updated self block.now.converged_filters.now block.now.x2.now block.now.y2.now block.now.e2.now }
    {
        let min_erle_log2 = self.settings.min_erle_log2();
        let loud = is_loud(block);
        // By an index, which also picks a channel's flag and its powers: by `change` an update took 1 to 3 % more instructions.
        for ch in 0..self.settings.num_capture_channels {
            let channel = self.channels[ch];
            let heard = loud & block.converged_filters[ch];
            self.channels[ch] = channel.after_block(
                min_erle_log2,
                heard,
                block.own_y2(ch),
                block.own_e2(ch),
            );
        }
        self
    }

    // The least figure of the state's channels, or log2 of (the minimum plus 0.001) where it has none.
    #[tactic(auto, unfolding(crate::specs::FullBand::fullband_log2, crate::specs::FullBand::least_or))]
    fn least_figure(&self) -> f32
        ensures { result ≡ fullband_log2 self.now }
    {
        match self.own_channels() {
            [first, others @ ..] => others
                .iter()
                .fold(first.erle_time_domain_log2, |least, channel| {
                    smaller(least, channel.erle_time_domain_log2)
                }),
            [] => self.settings.min_erle_log2(),
        }
    }

    // The fullband log2 figure. 20 is turned away.
    #[tactic(auto, unfolding(crate::specs::FullBand::log2_answer, crate::specs::FullBand::state_refusal))]
    pub fn fullband_erle_log2(self) -> Result<f32, Refusal>
        ensures { numbered result ≡ log2_answer self }
    {
        self.judge()?;
        Ok(self.least_figure())
    }

    // The same in decibels.
    #[tactic(auto, unfolding(crate::specs::FullBand::decibel_answer, crate::specs::FullBand::log2_answer))]
    pub fn fullband_erle_db(self) -> Result<f32, Refusal>
        ensures { numbered result ≡ decibel_answer self }
    {
        self.fullband_erle_log2().map(decibels)
    }

    // The quality of a channel's linear filter; absent too for a channel that the state does not have. 20 is turned away.
    #[tactic(auto, unfolding(crate::specs::FullBand::quality_answer, crate::specs::FullBand::state_refusal), using(crate::proofs::Judged::no_quality))]
    pub fn linear_quality_estimate(self, channel: usize) -> Result<OptionalNumber, Refusal>
        ensures { numbered result ≡ quality_answer self channel }
    {
        self.judge()?;
        let quality = match self.own_channels().get(channel) {
            Some(own) => own
                .instantaneous_erle
                .quality_estimate(self.settings.clamps),
            None => OptionalNumber::Absent,
        };
        Ok(quality)
    }
}
