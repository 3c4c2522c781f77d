// One channel's record: its streams, its active sections, and what it has learnt.
ghost use Rattle.std.specs.Prelude.{◌≡◌, true, ◌≤◌, ◌<◌, ◌+◌, ◌*◌, ltb, length};
ghost use Rattle.std.specs.List.{list_all};

use crate::settings::SignalDependentSettings;
use aec3_common::Block;
use correction_factors::{
    CorrectionFactors, SubbandBlock, band_factors, copy_last, correct_stream, subband_sums,
};

// A table for each figure, not a record for each band: loops go over one table at a time, and a whole stream is shown at once.
#[derive(Clone, Copy, Debug)]
pub struct SignalDependentChannel {
    pub erle: [f32; 65],
    pub erle_onset_compensated: [f32; 65],
    pub corrections: CorrectionFactors,
    pub n_active_sections: [u32; 65],
}

// A channel's own part of a block: whether it is converged, its capture and residual power, and the subband estimator's plain and
// compensated streams, 65 numbers each.
#[derive(Clone, Copy, Debug)]
pub struct ChannelBlock<'a> {
    pub converged: bool,
    pub y2: &'a [f32],
    pub e2: &'a [f32],
    pub average: &'a [f32],
    pub average_compensated: &'a [f32],
    ghost capture: { length y2.now ≡ 65 },
    ghost residual: { length e2.now ≡ 65 },
    ghost plain: { length average.now ≡ 65 },
    ghost compensated: { length average_compensated.now ≡ 65 },
}

impl<'a> ChannelBlock<'a> {
    ghost use Rattle.signal_dependent_erle_estimator.specs.Channel.{lent_by};
    ghost use Rattle.signal_dependent_erle_estimator.specs.SignalDependent.{powers_lent, lent_to};

    // The part of a block that is a channel's, with its own two streams.
    pub fn new(
        block: &'a Block,
        ch: usize,
        average: &'a [f32],
        average_compensated: &'a [f32],
    ) -> ChannelBlock<'a>
        requires flagged { ch < length block.now.converged_filters.now }
        requires powers { (ch * 65 + 65 ≤ length block.now.y2.now) × (ch * 65 + 65 ≤ length block.now.e2.now) }
        requires streams { (length average.now ≡ 65) × (length average_compensated.now ≡ 65) }
        ensures { lent_by result ≡ lent_to (powers_lent block.now) (λ c. average.now) (λ c. average_compensated.now) ch }
    {
        ChannelBlock {
            converged: block.converged_filters[ch],
            y2: block.own_y2(ch),
            e2: block.own_e2(ch),
            average,
            average_compensated,
        }
    }
}

impl SignalDependentChannel {
    ghost use Rattle.signal_dependent_erle_estimator.specs.Channel.{lent_by, fresh_channel, learnt_if, channel_after};
    ghost use Rattle.signal_dependent_erle_estimator.specs.SignalDependent.{channel_ok};

    #[tactic(auto, unfolding(crate::specs::Channel::fresh_channel, aec3_common::specs::Lists::tab))]
    pub fn new(min: f32) -> SignalDependentChannel
        ensures { result ≡ fresh_channel min }
    {
        SignalDependentChannel {
            erle: [min; 65],
            erle_onset_compensated: [min; 65],
            corrections: CorrectionFactors::new(min),
            n_active_sections: [0; 65],
        }
    }

    // Whether number 20 lets the record pass: every active section is below the count.
    #[tactic(auto, unfolding(crate::specs::SignalDependent::channel_ok))]
    pub fn ok(&self, sections: u32) -> bool
        ensures { result ≡ channel_ok sections self.now }
    {
        self.n_active_sections.iter().all(|&n| n < sections)
    }

    // What the channel has learnt after an update: where it is not converged, nothing new.
    #[tactic(auto, unfolding(crate::specs::Channel::learnt_if))]
    fn learnt(
        self,
        settings: SignalDependentSettings,
        active: &[u32; 65],
        x2: &[f32; 6],
        own: &ChannelBlock,
    ) -> CorrectionFactors
        requires bound { (1 ≤ settings.layout.num_sections) × (settings.layout.num_sections ≤ 8) }
        ensures { result ≡ learnt_if settings active.now x2.now own.now.converged own.now.y2.now own.now.e2.now self.corrections }
    {
        if !own.converged {
            return self.corrections;
        }
        let block = SubbandBlock {
            num_sections: settings.layout.num_sections,
            active,
            x2,
            y2: &subband_sums(own.y2),
            e2: &subband_sums(own.e2),
        };
        self.corrections.update(settings.limits, &block)
    }

    // One update, by the active section of each band and the subband sums of the render power.
    pub fn update(
        mut self,
        settings: SignalDependentSettings,
        active: &[u32; 65],
        x2: &[f32; 6],
        own: &ChannelBlock,
    ) -> SignalDependentChannel
        requires bound { (1 ≤ settings.layout.num_sections) × (settings.layout.num_sections ≤ 8) }
        requires active_value { list_all (λ n. ltb n settings.layout.num_sections) active.now ≡ true }
        ensures { result ≡ channel_after settings active.now x2.now (lent_by own.now) self }
    {
        let corrections = self.learnt(settings, active, x2, own);
        self.corrections = corrections;
        self.n_active_sections = *active;
        let factors = band_factors(&corrections.correction_factors, active);
        let limits = settings.limits;
        correct_stream(&mut self.erle, own.average, &factors, limits);
        if settings.onset_detection {
            correct_stream(
                &mut self.erle_onset_compensated,
                own.average_compensated,
                &factors,
                limits,
            );
        } else {
            copy_last(&mut self.erle_onset_compensated);
        }
        self
    }
}
