// What the ERLE estimator holds inside, for the programs that replay a script of library calls: its block count, and for
// each channel what the records of its three parts have besides the figures. No function asks anything of its caller.
#![tactic(auto)]

use aec3_common::settings::MAX_SECTIONS;
use channel_lines::ChannelState;
use erle_estimator::ErleEstimator;
use script::{Figures, Numbers};
use signal_dependent_erle_estimator::SignalDependentChannel;
use std::fmt;

// The subbands of a section, for each of which it has an estimate and a factor.
const SUBBANDS: usize = 6;

// What a channel holds for its sections, so many. Where there is but one, nothing is learnt and nothing shown.
#[derive(Clone, Copy, Debug)]
struct SectionState<'a> {
    index: usize,
    channel: &'a SignalDependentChannel,
    num_sections: usize,
}

impl fmt::Display for SectionState<'_> {
    fn fmt<W: fmt::Write>(&self, f: &mut fmt::Formatter<W>) -> fmt::Result {
        if self.num_sections < 2 {
            return Ok(());
        }
        let c = self.index;
        let corrections = &self.channel.corrections;
        let shown = SUBBANDS * self.num_sections.min(MAX_SECTIONS);
        writeln!(f, "updates {c}{}", Numbers(&corrections.num_updates))?;
        writeln!(f, "active {c}{}", Numbers(&self.channel.n_active_sections))?;
        writeln!(f, "reference {c}{}", Figures(&corrections.erle_ref))?;
        writeln!(
            f,
            "estimates {c}{}",
            Figures(&corrections.erle_estimators[..shown])
        )?;
        writeln!(
            f,
            "factors {c}{}",
            Figures(&corrections.correction_factors[..shown])
        )
    }
}

// The block count, and the lines of each channel; records that the state does not use are not shown.
#[derive(Clone, Copy, Debug)]
pub struct ErleState<'a>(pub &'a ErleEstimator);

impl fmt::Display for ErleState<'_> {
    fn fmt<W: fmt::Write>(&self, f: &mut fmt::Formatter<W>) -> fmt::Result {
        let erle = self.0;
        let settings = erle.settings;
        writeln!(f, "count {}", erle.blocks_since_reset)?;
        let parts = erle
            .subband
            .iter()
            .zip(erle.signal_dependent.iter())
            .zip(erle.fullband.iter());
        let shown = parts.take(settings.num_capture_channels);
        for (index, ((subband, signal_dependent), fullband)) in shown.enumerate() {
            let sections = SectionState {
                index,
                channel: signal_dependent,
                num_sections: settings.layout.num_sections,
            };
            let subband = ChannelState {
                index,
                channel: subband,
            };
            let fullband = ChannelState {
                index,
                channel: fullband,
            };
            write!(f, "{subband}{sections}{fullband}")?;
        }
        Ok(())
    }
}

#[cfg(test)]
mod tests {
    use super::*;
    use aec3_common::{ErleLimits, FilterLayout};
    use erle_estimator::ErleSettings;
    use std::test::Fail;

    // What a start leaves: no point, no update, every band waiting for an onset, and the extremes of the quality at -10 and 33.
    #[test]
    fn shows_a_start(rt: HostRuntime) -> Result<(), Fail> {
        let settings = ErleSettings {
            limits: ErleLimits {
                min: 1.0,
                max_l: 4.0,
                max_h: 1.5,
            },
            onset_detection: true,
            num_capture_channels: 2,
            layout: FilterLayout {
                num_sections: 2,
                filter_length_blocks: 13,
                delay_headroom_samples: 0,
            },
            clamp_quality_estimate_to_zero: true,
            clamp_quality_estimate_to_one: true,
        };
        let erle = ErleEstimator::new(0, settings)?;
        let text = format!(in rt.alloc(); "{}", ErleState(&erle))?;
        assert!(rt; text.starts_with("count 0\npoints 0 0\ny2sum 0 00000000 "));
        assert!(rt; text.contains("0\nwait 0 111111"));
        assert!(rt; text.contains(" 0\nupdates 1 0 0 0 0 0 0\nactive 1 0 0 "));
        assert!(rt;
            text.contains(
                "\nreference 1 3F800000 3F800000 3F800000 3F800000 3F800000 3F800000\nestimates 1 3F800000 "
            )
        );
        assert!(rt;
            text.ends_with(
                "\nfullstate 1 0 0 3D6ED000 00000000 00000000 C1200000 42040000 absent 00000000\n"
            )
        );
        assert_eq!(rt; text.lines().count(), 25);
        Ok(())
    }
}
