// One channel's record: 65 bands, and the points that its sums hold.
ghost use Rattle.std.specs.Prelude.{◌≡◌, true, ◌≤◌, length};
ghost use Rattle.subband_erle_estimator.specs.Channel.{points_with, fresh, unconverged_block, channel_after};
ghost use Rattle.subband_erle_estimator.specs.Subband.{channel_ok};
ghost use Rattle.subband_erle_estimator.specs.Steps.{sums_cleared, learnt_by};

use crate::settings::SubbandSettings;
use aec3_common::spectra::copy_ends;
use aec3_common::sums_ok;
use erle_bands::onsets::{decay_all, lower_all, wait_all};
use erle_bands::streams::NewRatios;
use erle_bands::sums::{accumulate, accumulate_low_energy, new_ratios};

pub const POINTS_TO_ACCUMULATE: usize = 6;

// Arrays of 65, one for each value that a band holds: the project asks for this form of a channel's record, and each step goes over one of them,
// not over all. No invariant bounds the points: a state with more than six must be a value too, since number 20 judges it.
#[derive(Clone, Copy, Debug)]
pub struct SubbandChannel {
    pub num_points: usize,
    pub erle: [f32; 65],
    pub erle_onset_compensated: [f32; 65],
    pub erle_unbounded: [f32; 65],
    pub erle_onsets: [f32; 65],
    pub coming_onset: [bool; 65],
    pub hold_counters: [i32; 65],
    pub y2: [f32; 65],
    pub e2: [f32; 65],
    pub low_render_energy: [bool; 65],
}

// The points held after one more.
fn points_with(points: usize) -> usize
    requires { points ≤ 6 }
    ensures { result ≡ points_with points }
{
    if points == POINTS_TO_ACCUMULATE {
        1
    } else {
        points + 1
    }
}

impl SubbandChannel {
    #[tactic(auto, unfolding(crate::specs::Channel::fresh, crate::specs::Channel::channel_from, aec3_common::specs::Lists::tab))]
    pub fn new(min: f32) -> SubbandChannel
        ensures { result ≡ fresh min }
    {
        SubbandChannel {
            erle: [min; 65],
            erle_onset_compensated: [min; 65],
            erle_unbounded: [min; 65],
            erle_onsets: [min; 65],
            coming_onset: [true; 65],
            hold_counters: [0; 65],
            y2: [0.0; 65],
            e2: [0.0; 65],
            low_render_energy: [false; 65],
            num_points: 0,
        }
    }

    // The plain ERLE of each band.
    pub fn erle(self) -> [f32; 65]
        ensures { result ≡ self.erle }
    {
        self.erle
    }

    // The onset-compensated ERLE. In a run with onset detection off it is the minimum, and `erle` of the crate answers the plain one.
    pub fn erle_onset_compensated(self) -> [f32; 65]
        ensures { result ≡ self.erle_onset_compensated }
    {
        self.erle_onset_compensated
    }

    // The uncapped ERLE.
    pub fn erle_unbounded(self) -> [f32; 65]
        ensures { result ≡ self.erle_unbounded }
    {
        self.erle_unbounded
    }

    // The onset values.
    pub fn erle_onsets(self) -> [f32; 65]
        ensures { result ≡ self.erle_onsets }
    {
        self.erle_onsets
    }

    // Nothing of the old record stays.
    pub(crate) fn reset(self, min: f32) -> SubbandChannel
        ensures { result ≡ fresh min }
    {
        SubbandChannel::new(min)
    }

    // Whether number 20 lets the record pass.
    #[tactic(auto, unfolding(crate::specs::Subband::channel_ok))]
    pub fn ok(&self) -> bool
        ensures { result ≡ channel_ok self.now }
    {
        (self.num_points <= POINTS_TO_ACCUMULATE) & sums_ok(&self.y2) & sums_ok(&self.e2)
    }

    // One update of a converged channel.
    pub fn update(
        mut self,
        settings: SubbandSettings,
        x2: &[f32],
        y2: &[f32],
        e2: &[f32],
    ) -> SubbandChannel
        requires num_points_bound { self.num_points ≤ 6 }
        requires x2_len { (length x2.now ≡ 65) × (length y2.now ≡ 65) × (length e2.now ≡ 65) }
        ensures { result ≡ channel_after settings (record { converged = true; render = x2.now; capture = y2.now; residual = e2.now }) self }
    {
        self.step_in_place(settings, true, x2, y2, e2);
        self
    }

    // One block of a record that is lent: a converged channel adds the block's powers, and on a sixth point learns; every channel decays.
    // In place, since each method that takes a record and gives it back is a copy of 2 KB. The powers are slices beside the flag, here and in
    // `update`, and not a struct: the project hands a channel's part of a lent slice on as a slice.
    pub fn step_in_place(
        &mut self,
        settings: SubbandSettings,
        converged: bool,
        x2: &[f32],
        y2: &[f32],
        e2: &[f32],
    )
        requires num_points_bound { self.old.num_points ≤ 6 }
        requires x2_len { (length x2.now ≡ 65) × (length y2.now ≡ 65) × (length e2.now ≡ 65) }
        ensures { self.new ≡ channel_after settings (record { converged = converged; render = x2.now; capture = y2.now; residual = e2.now }) self.old }
    {
        if converged {
            let points = points_with(self.num_points);
            if self.num_points == POINTS_TO_ACCUMULATE {
                self.clear_sums();
            }
            accumulate(&mut self.y2, y2);
            accumulate(&mut self.e2, e2);
            accumulate_low_energy(&mut self.low_render_energy, x2);
            self.num_points = points;
            if points == POINTS_TO_ACCUMULATE {
                self.learn(settings);
            }
        }
        self.decay_in_place(settings);
    }

    // One update of a channel that stands unconverged.
    pub fn decay(mut self, settings: SubbandSettings) -> SubbandChannel
        ensures { result ≡ channel_after settings unconverged_block self }
    {
        self.decay_in_place(settings);
        self
    }

    // The same of a record that is lent.
    pub fn decay_in_place(&mut self, settings: SubbandSettings)
        ensures { self.new ≡ channel_after settings unconverged_block self.old }
    {
        if settings.onset_detection {
            lower_all(&mut self.hold_counters);
            decay_all(
                &mut self.erle_onset_compensated,
                &self.erle_onsets,
                &self.hold_counters,
                settings.limits.min,
            );
            wait_all(&mut self.coming_onset, &self.hold_counters);
        }
        copy_ends(&mut self.erle);
        copy_ends(&mut self.erle_onset_compensated);
        copy_ends(&mut self.erle_unbounded);
    }

    // The sums begin again.
    #[tactic(auto, unfolding(crate::specs::Steps::sums_cleared, aec3_common::specs::Lists::tab))]
    fn clear_sums(&mut self)
        ensures { self.new ≡ sums_cleared self.old }
    {
        self.y2 = [0.0; 65];
        self.e2 = [0.0; 65];
        self.low_render_energy = [false; 65];
    }

    // What the bands learn from the ratios of the sums.
    fn learn(&mut self, settings: SubbandSettings)
        ensures { self.new ≡ learnt_by settings self.old }
    {
        let news = NewRatios {
            ratios: &new_ratios(&self.y2, &self.e2),
            low: &self.low_render_energy,
        };
        let limits = settings.limits;
        news.move_stream(&mut self.erle, limits);
        news.move_stream(&mut self.erle_unbounded, settings.uncapped_limits());
        if settings.onset_detection {
            news.move_stream(&mut self.erle_onset_compensated, limits);
            news.stop_waiting(&mut self.coming_onset);
            news.hold_again(&mut self.hold_counters);
        }
    }
}
