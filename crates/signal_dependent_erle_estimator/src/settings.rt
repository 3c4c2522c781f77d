// The settings of the signal-dependent estimator.
ghost use Rattle.std.specs.Prelude.{◌≡◌};
ghost use Rattle.aec3_common.specs.Answers.{number_of};

use aec3_common::settings::judge_sectioned_settings;
use aec3_common::{ErleLimits, ErleSettings, FilterLayout, Refusal};

#[derive(Clone, Copy, Debug)]
pub struct SignalDependentSettings {
    pub limits: ErleLimits,
    pub onset_detection: bool,
    pub num_capture_channels: usize,
    pub layout: FilterLayout,
}

// The share of the whole estimator's settings.
impl From<ErleSettings> for SignalDependentSettings {
    ghost use Rattle.signal_dependent_erle_estimator.specs.Settings.{signal_settings};

    ghost from_gives = { λ settings share. share ≡ signal_settings settings };

    fn from(settings: ErleSettings) -> SignalDependentSettings {
        SignalDependentSettings {
            limits: settings.limits,
            onset_detection: settings.onset_detection,
            num_capture_channels: settings.num_capture_channels,
            layout: settings.layout,
        }
    }
}

impl SignalDependentSettings {
    ghost use Rattle.signal_dependent_erle_estimator.specs.SignalDependent.{settings_refusal};

    // The first of 1, 2 and 3 that the settings break.
    #[tactic(auto, unfolding(crate::specs::SignalDependent::settings_refusal))]
    pub fn judge(self) -> Result<(), Refusal>
        ensures { number_of result ≡ settings_refusal self }
    {
        judge_sectioned_settings(self.limits, self.num_capture_channels, self.layout)
    }
}
