// The settings of the estimator, and what turns them away.
ghost use Rattle.std.specs.Prelude.{◌≡◌};
ghost use Rattle.aec3_common.specs.Answers.{number_of};
ghost use Rattle.fullband_erle_estimator.specs.FullBand.{settings_refusal, fullband_settings, min_log2};

use aec3_common::log2::approx_log2;
use aec3_common::settings::judge_limits_and_channels;
use aec3_common::{ErleLimits, ErleSettings, Refusal};
use fullband_channel::instantaneous::{EPSILON, QualityClamps};

#[derive(Clone, Copy, Debug)]
pub struct FullBandSettings {
    pub limits: ErleLimits,
    pub clamps: QualityClamps,
    pub num_capture_channels: usize,
}

// The share of the whole estimator's settings.
impl From<ErleSettings> for FullBandSettings {
    ghost from_gives = { λ settings share. share ≡ fullband_settings settings };

    fn from(settings: ErleSettings) -> FullBandSettings {
        FullBandSettings {
            limits: settings.limits,
            clamps: QualityClamps {
                to_zero: settings.clamp_quality_estimate_to_zero,
                to_one: settings.clamp_quality_estimate_to_one,
            },
            num_capture_channels: settings.num_capture_channels,
        }
    }
}

impl FullBandSettings {
    // The first of 1 and 2 that the settings break.
    #[tactic(auto, unfolding(crate::specs::FullBand::settings_refusal))]
    pub fn judge(self) -> Result<(), Refusal>
        ensures { number_of result ≡ settings_refusal self }
    {
        judge_limits_and_channels(self.limits, self.num_capture_channels)
    }

    // Log2 of (the minimum plus 0.001).
    #[tactic(auto, unfolding(crate::specs::FullBand::min_log2))]
    pub fn min_erle_log2(self) -> f32
        ensures { result ≡ min_log2 self }
    {
        approx_log2(self.limits.min + EPSILON)
    }
}
