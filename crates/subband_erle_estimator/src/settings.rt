// The settings of the estimator, and what turns them away.
ghost use Rattle.std.specs.Prelude.{◌≡◌};
ghost use Rattle.aec3_common.specs.Answers.{number_of};
ghost use Rattle.subband_erle_estimator.specs.Subband.{subband_settings, settings_refusal};
ghost use Rattle.subband_erle_estimator.specs.Steps.{uncapped_limits};

use aec3_common::settings::{GREATEST_ERLE, judge_limits_and_channels};
use aec3_common::{ErleLimits, ErleSettings, Refusal};

#[derive(Clone, Copy, Debug)]
pub struct SubbandSettings {
    // Of the plain and the compensated stream; the uncapped one has others.
    pub limits: ErleLimits,
    pub onset_detection: bool,
    pub num_capture_channels: usize,
}

// Its share of the settings of the whole ERLE estimator.
impl From<ErleSettings> for SubbandSettings {
    ghost from_gives = { λ settings share. share ≡ subband_settings settings };

    fn from(settings: ErleSettings) -> SubbandSettings {
        SubbandSettings {
            limits: settings.limits,
            onset_detection: settings.onset_detection,
            num_capture_channels: settings.num_capture_channels,
        }
    }
}

impl SubbandSettings {
    // The first of 1 and 2 that the settings break.
    #[tactic(auto, unfolding(crate::specs::Subband::settings_refusal))]
    pub fn judge(self) -> Result<(), Refusal>
        ensures { number_of result ≡ settings_refusal self }
    {
        judge_limits_and_channels(self.limits, self.num_capture_channels)
    }

    // The limits of the uncapped stream.
    pub(crate) fn uncapped_limits(self) -> ErleLimits
        ensures { result ≡ uncapped_limits self }
    {
        ErleLimits {
            min: self.limits.min,
            max_l: GREATEST_ERLE,
            max_h: GREATEST_ERLE,
        }
    }
}
