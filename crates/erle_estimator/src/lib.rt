// The whole ERLE estimator: subband, signal-dependent and fullband under one set of settings and one block count.
#![tactic(auto)]

mod moves;
mod streams;

ghost use Rattle.std.specs.Prelude.{◌≡◌, ◌<◌, [], get_or, IfOk};
ghost use Rattle.aec3_common.specs.Answers.{number_of, numbered, told};
ghost use Rattle.erle_estimator.specs.Parts.{fullband_part};
ghost use Rattle.erle_estimator.specs.Erle.{state_ok, state_refusal, refused_settings, started_with, start_answer, after_reset, reset_answer, after_block, update_answer, log2_answer, decibel_answer, quality_answer};
ghost use Rattle.erle_estimator.specs.Range.{FiguresInRange};
ghost use Rattle.erle_estimator.specs.Steps.{BlockFits, PointsFit, SectionsFit, moved_by_powers, moved_by_sections};
ghost use Rattle.erle_estimator.specs.Runs.{NeverBadState};
ghost use Rattle.signal_dependent_erle_estimator.specs.SignalDependent.{update_of, powers_lent};

use aec3_common::counts::one_more;
use aec3_common::entries::change;
pub use aec3_common::settings::ErleSettings;
pub use aec3_common::streams::erle;
use aec3_common::{Answer, Block, ErleLimits, FilterLayout, Refusal};
use correction_factors::subband_sums;
pub use fullband_erle_estimator::OptionalNumber;
use fullband_erle_estimator::{FullBandChannel, FullBandErleEstimator, FullBandSettings, is_loud};
pub use moves::{fullband_channel, subband_channel};
pub use section_echoes::{FilterResponses, RenderBuffer, RenderRing};
pub use signal_dependent_erle_estimator::Inputs;
use signal_dependent_erle_estimator::{
    ChannelBlock, SignalDependentChannel, SignalDependentSettings, active_sections, boundaries_of,
    settings_pass,
};
pub use streams::{ErleStreams, erle_streams};
use subband_erle_estimator::{SubbandChannel, SubbandSettings};

// The settings once, the startup count, the blocks counted since the latest reset that came with a change of delay, and four records of
// each part. A table for each part, not one of channels with three records each: a part alone has such a table, and what is said of it is said
// here of the table as it stands.
#[derive(Clone, Copy, Debug)]
pub struct ErleEstimator {
    pub settings: ErleSettings,
    pub startup_phase_length_blocks: u32,
    pub blocks_since_reset: u32,
    pub section_boundaries_blocks: [usize; 9],
    pub subband: [SubbandChannel; 4],
    pub signal_dependent: [SignalDependentChannel; 4],
    pub fullband: [FullBandChannel; 4],
}

// Settings without a channel, which 20 turns away: they stand for settings that are yet to come. They are not `Default`, since no start would
// accept them.
#[tactic(auto, unfolding(crate::specs::Erle::refused_settings, aec3_common::specs::Binary32::zero32))]
pub fn refused_settings() -> ErleSettings
    ensures { result ≡ refused_settings }
{
    ErleSettings {
        limits: ErleLimits {
            min: 0.0,
            max_l: 0.0,
            max_h: 0.0,
        },
        onset_detection: false,
        num_capture_channels: 0,
        layout: FilterLayout {
            num_sections: 0,
            filter_length_blocks: 0,
            delay_headroom_samples: 0,
        },
        clamp_quality_estimate_to_zero: false,
        clamp_quality_estimate_to_one: false,
    }
}

// Every part as a start leaves it, with a block count. It judges nothing. It stays out of line: written out in a caller, its stores part by part would
// break each later copy of the state there into as many pieces, and updates would take up to a fifth longer.
#[inline(never)]
#[tactic(auto, unfolding(crate::specs::Erle::started_with, subband_erle_estimator::specs::Subband::started, signal_dependent_erle_estimator::specs::SignalDependent::started, fullband_erle_estimator::specs::FullBand::started, aec3_common::specs::Lists::tab))]
pub fn started_with(startup: u32, blocks: u32, settings: ErleSettings) -> ErleEstimator
    ensures { result ≡ started_with startup blocks settings }
{
    let min_erle_log2 = FullBandSettings::from(settings).min_erle_log2();
    ErleEstimator {
        settings,
        startup_phase_length_blocks: startup,
        blocks_since_reset: blocks,
        section_boundaries_blocks: boundaries_of(settings.into()),
        subband: [SubbandChannel::new(settings.limits.min); 4],
        signal_dependent: [SignalDependentChannel::new(settings.limits.min); 4],
        fullband: [FullBandChannel::new(min_erle_log2); 4],
    }
}

impl ErleEstimator {
    // A start. 1, 2 and 3 are turned away. After an accepted start no later call is turned away under 20; every band's figures stay in
    // range, and the fullband figures are numbers.
    #[tactic(auto, unfolding(crate::specs::Erle::start_answer))]
    pub fn new(
        startup_phase_length_blocks: u32,
        settings: ErleSettings,
    ) -> Result<ErleEstimator, Refusal>
        ensures value { numbered result ≡ start_answer startup_phase_length_blocks settings }
        ensures never_bad_state { IfOk result NeverBadState }
        ensures figures_in_range { IfOk result (FiguresInRange settings) }
    {
        settings.judge()?;
        Ok(started_with(startup_phase_length_blocks, 0, settings))
    }

    // Whether number 20 lets the state pass. The state is lent, since one that is handed over by value is copied whole.
    pub fn ok(&self) -> bool
        ensures { result ≡ state_ok self.now }
    {
        let settings = self.settings;
        if !settings_pass(settings.into(), &self.section_boundaries_blocks) {
            return false;
        }
        let count = settings.num_capture_channels;
        let sections = settings.layout.num_sections as u32;
        let subband = self.subband.iter().take(count).all(|channel| channel.ok());
        let signal_dependent = self
            .signal_dependent
            .iter()
            .take(count)
            .all(|channel| channel.ok(sections));
        let fullband = self.fullband.iter().take(count).all(|channel| channel.ok());
        subband & signal_dependent & fullband
    }

    // Number 20.
    #[tactic(auto, unfolding(crate::specs::Erle::state_refusal))]
    fn judge(&self) -> Result<(), Refusal>
        ensures { number_of result ≡ state_refusal self.now }
    {
        if self.ok() {
            Ok(())
        } else {
            Err(Refusal::BadState)
        }
    }

    // Every part as after a start; the count is cleared only if the delay changed. It judges nothing.
    #[tactic(auto, unfolding(crate::specs::Erle::after_reset, crate::specs::Erle::blocks_kept))]
    pub fn restarted(self, delay_change: bool) -> ErleEstimator
        ensures { result ≡ after_reset self delay_change }
    {
        let blocks = if delay_change {
            0
        } else {
            self.blocks_since_reset
        };
        started_with(self.startup_phase_length_blocks, blocks, self.settings)
    }

    // The same, and 20 is turned away.
    #[tactic(auto, unfolding(crate::specs::Erle::reset_answer))]
    pub fn reset(self, delay_change: bool) -> Answer<ErleEstimator>
        ensures { told result ≡ reset_answer self delay_change }
    {
        let outcome = self.judge();
        let state = if outcome.is_ok() {
            self.restarted(delay_change)
        } else {
            self
        };
        Answer { state, outcome }
    }

    // The subband and the fullband records of every channel, one block later.
    fn move_by_powers(&mut self, block: &Block)
        requires fits { BlockFits self.old block.now.num_capture_channels (powers_lent block.now) }
        requires held { PointsFit self.old block.now.num_capture_channels }
        ensures { self.new ≡ moved_by_powers self.old (powers_lent block.now) }
    {
        let subband_part = SubbandSettings::from(self.settings);
        let min_erle_log2 = FullBandSettings::from(self.settings).min_erle_log2();
        let loud = is_loud(block);
        // By an index: each subband record is changed where it stands, and `change` would copy it out and back, 2 KB each way.
        for ch in 0..block.num_capture_channels {
            let converged = block.converged_filters[ch];
            let y2 = block.own_y2(ch);
            let e2 = block.own_e2(ch);
            self.subband[ch].step_in_place(subband_part, converged, block.x2, y2, e2);
            let c = self.fullband[ch];
            self.fullband[ch] = c.after_block(min_erle_log2, loud & converged, y2, e2);
        }
    }

    // The signal-dependent records, by the active sections and the subband streams as they are now.
    fn move_by_sections(&mut self, active: &[[u32; 65]; 4], block: &Block)
        requires fits { BlockFits self.old block.now.num_capture_channels (powers_lent block.now) }
        requires sections { SectionsFit self.old block.now.num_capture_channels (λ ch. get_or active.now ch []) }
        ensures { self.new ≡ moved_by_sections self.old (powers_lent block.now) (λ ch. get_or active.now ch []) }
    {
        let signal_part = SignalDependentSettings::from(self.settings);
        let x2_subbands = subband_sums(block.x2);
        let subband = &self.subband;
        change(
            &mut self.signal_dependent,
            0,
            block.num_capture_channels,
            |ch, c| {
                let streams = &subband[ch];
                let own = ChannelBlock::new(
                    block,
                    ch,
                    &streams.erle,
                    &streams.erle_onset_compensated,
                );
                c.update(signal_part, &active[ch], &x2_subbands, &own)
            },
        );
    }

    // The inner update: a block that was judged, by the active sections of each channel. It counts one block; below the startup count nothing else
    // happens. With one section no active section is looked at.
    pub fn advance(&mut self, active: &[[u32; 65]; 4], block: &Block)
        requires fits { BlockFits self.old block.now.num_capture_channels (powers_lent block.now) }
        requires held { PointsFit self.old block.now.num_capture_channels }
        requires sections { 1 < self.old.settings.layout.num_sections → SectionsFit self.old block.now.num_capture_channels (λ ch. get_or active.now ch []) }
        ensures { self.new ≡ after_block self.old (powers_lent block.now) (λ ch. get_or active.now ch []) }
    {
        let blocks = one_more(self.blocks_since_reset);
        self.blocks_since_reset = blocks;
        if self.startup_phase_length_blocks <= blocks {
            self.move_by_powers(block);
            if self.settings.layout.num_sections > 1 {
                self.move_by_sections(active, block);
            }
        }
    }

    // One block. 20, 21, 2, 4, 9, 5 and 6 are turned away, in startup too; a block that is turned away is not counted. The active sections
    // are found, and then the inner update goes by them.
    pub fn update(mut self, inputs: &Inputs) -> Answer<ErleEstimator>
        ensures { told result ≡ update_answer self (update_of inputs.now) }
    {
        let signal_part = SignalDependentSettings::from(self.settings);
        // Besides, nothing is lent that could be turned away.
        let outcome = inputs.judge_beside(self.ok(), signal_part, Ok(()));
        if outcome.is_ok() {
            let active = active_sections(
                signal_part,
                &self.section_boundaries_blocks,
                &inputs.render,
                &inputs.responses,
            );
            self.advance(&active, &inputs.block);
        }
        Answer {
            state: self,
            outcome,
        }
    }

    // The fullband part, for its readers.
    fn fullband_part(self) -> FullBandErleEstimator
        ensures { result ≡ fullband_part self }
    {
        let channels = self.fullband;
        FullBandErleEstimator {
            settings: self.settings.into(),
            channels,
        }
    }

    // The fullband log2 figure. 20 is turned away.
    #[tactic(auto, unfolding(crate::specs::Erle::log2_answer, crate::specs::Erle::state_refusal, fullband_erle_estimator::specs::FullBand::log2_answer, fullband_erle_estimator::specs::FullBand::state_refusal))]
    pub fn fullband_erle_log2(self) -> Result<f32, Refusal>
        ensures { numbered result ≡ log2_answer self }
    {
        self.judge()?;
        self.fullband_part().fullband_erle_log2()
    }

    // The same in decibels.
    #[tactic(auto, unfolding(crate::specs::Erle::decibel_answer, crate::specs::Erle::state_refusal, fullband_erle_estimator::specs::FullBand::decibel_answer, fullband_erle_estimator::specs::FullBand::state_refusal))]
    pub fn fullband_erle_db(self) -> Result<f32, Refusal>
        ensures { numbered result ≡ decibel_answer self }
    {
        self.judge()?;
        self.fullband_part().fullband_erle_db()
    }

    // The quality of a channel's linear filter. 20 is turned away.
    #[tactic(auto, unfolding(crate::specs::Erle::quality_answer, crate::specs::Erle::state_refusal, fullband_erle_estimator::specs::FullBand::quality_answer, fullband_erle_estimator::specs::FullBand::state_refusal))]
    pub fn linear_quality_estimate(self, ch: usize) -> Result<OptionalNumber, Refusal>
        ensures { numbered result ≡ quality_answer self ch }
    {
        self.judge()?;
        self.fullband_part().linear_quality_estimate(ch)
    }
}
