// The figures of the whole ERLE estimator, for the programs that replay a script of library calls: the streams of each
// channel, and a line of the fullband figures. No function asks anything of its caller.
#![tactic(auto)]

use aec3_common::settings::MAX_CAPTURE_CHANNELS;
use channel_lines::{ChannelStreams, FullReadings};
use erle_estimator::{ErleEstimator, erle_streams};
use std::array;
use std::fmt::{self, Display};

// The figures of an estimator that stands; records that its state does not use are not shown.
#[derive(Clone, Copy, Debug)]
pub struct ErleFigures<'a>(pub &'a ErleEstimator);

impl fmt::Display for ErleFigures<'_> {
    fn fmt<W: fmt::Write>(&self, f: &mut fmt::Formatter<W>) -> fmt::Result {
        let erle = self.0;
        let num_channels = erle.settings.num_capture_channels;
        let channels = erle.subband.iter().zip(erle.signal_dependent.iter());
        for (index, (subband, signal_dependent)) in channels.take(num_channels).enumerate() {
            let shown = erle_streams(erle.settings, *subband, *signal_dependent);
            let streams = ChannelStreams {
                index,
                plain: &shown.plain,
                compensated: &shown.compensated,
                unbounded: &shown.unbounded,
                onsets: &shown.onsets,
            };
            streams.fmt(f)?;
        }
        let qualities: [_; MAX_CAPTURE_CHANNELS] = array::from_fn(|c| erle.linear_quality_estimate(
            c,
        ));
        let readings = FullReadings {
            log2: erle.fullband_erle_log2(),
            db: erle.fullband_erle_db(),
            qualities: &qualities[..num_channels.min(MAX_CAPTURE_CHANNELS)],
        };
        readings.fmt(f)
    }
}

#[cfg(test)]
mod tests {
    use super::*;
    use aec3_common::{ErleLimits, FilterLayout};
    use erle_estimator::ErleSettings;
    use std::test::Fail;

    // After a start with limits of 1, every figure is 1, the fullband figure is the log2 of a little more, and no quality is known.
    #[test]
    fn shows_a_start(rt: HostRuntime) -> Result<(), Fail> {
        let settings = ErleSettings {
            limits: ErleLimits {
                min: 1.0,
                max_l: 1.0,
                max_h: 1.0,
            },
            onset_detection: true,
            num_capture_channels: 2,
            layout: FilterLayout {
                num_sections: 1,
                filter_length_blocks: 13,
                delay_headroom_samples: 0,
            },
            clamp_quality_estimate_to_zero: true,
            clamp_quality_estimate_to_one: true,
        };
        let erle = ErleEstimator::new(0, settings)?;
        let text = format!(in rt.alloc(); "{}", ErleFigures(&erle))?;
        assert!(rt; text.starts_with("plain 0 3F800000 3F800000 "));
        assert!(rt; text.contains(" 3F800000\nonsets 1 3F800000 "));
        assert!(rt; text.ends_with("\nfull 3D6ED000 3E331C00 absent absent\n"));
        assert_eq!(rt; text.lines().count(), 9);
        Ok(())
    }
}
