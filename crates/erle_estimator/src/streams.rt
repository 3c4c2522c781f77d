// The streams of a channel that are shown.
ghost use Rattle.std.specs.Prelude.{◌≡◌, true};
ghost use Rattle.aec3_common.specs.Streams.{erle_of};
ghost use Rattle.erle_estimator.specs.Erle.{streams_shown};

use aec3_common::settings::ErleSettings;
use signal_dependent_erle_estimator::SignalDependentChannel;
use subband_erle_estimator::SubbandChannel;

// A channel's figures: the plain, the onset-compensated and the uncapped ERLE of each band, and the onset values. With onset detection
// off the compensated stream is the plain one; with two or more sections the uncapped one is the plain one.
#[derive(Clone, Copy, Debug)]
pub struct ErleStreams {
    pub plain: [f32; 65],
    pub compensated: [f32; 65],
    pub unbounded: [f32; 65],
    pub onsets: [f32; 65],
}

// The compensated stream as `erle` answers it, of the two that a record holds. Not `erle` itself: that gives back one of two lent slices, as is asked for,
// and here the records are handed over by value, so that a slice of theirs cannot be given back.
#[tactic(auto, unfolding(aec3_common::specs::Streams::erle_of))]
fn compensated_shown(plain: [f32; 65], held: [f32; 65], onset_detection: bool) -> [f32; 65]
    ensures { result ≡ erle_of plain held true onset_detection }
{
    if onset_detection { held } else { plain }
}

// A channel's figures, of its two records.
#[tactic(auto, unfolding(crate::specs::Erle::streams_shown, crate::specs::Erle::erle_shown, crate::specs::Erle::sectioned, aec3_common::specs::Streams::erle_of))]
pub fn erle_streams(
    settings: ErleSettings,
    subband: SubbandChannel,
    signal_dependent: SignalDependentChannel,
) -> ErleStreams
    ensures { result ≡ streams_shown settings subband signal_dependent }
{
    let onsets = subband.erle_onsets;
    if settings.layout.num_sections > 1 {
        let plain = signal_dependent.erle;
        let held = signal_dependent.erle_onset_compensated;
        ErleStreams {
            plain,
            compensated: compensated_shown(plain, held, settings.onset_detection),
            unbounded: plain,
            onsets,
        }
    } else {
        let plain = subband.erle;
        let held = subband.erle_onset_compensated;
        let unbounded = subband.erle_unbounded;
        ErleStreams {
            plain,
            compensated: compensated_shown(plain, held, settings.onset_detection),
            unbounded,
            onsets,
        }
    }
}
