// The readings of a fullband estimator, and the inner state of one of its channels.
use crate::ChannelState;
use aec3_common::Refusal;
use fullband_erle_estimator::{FullBandChannel, OptionalNumber};
use script::{Bits, Figures, OrRefused};
use std::fmt::{self, Display};

// A number, or that there is none.
#[derive(Clone, Copy, Debug)]
struct Shown(OptionalNumber);

impl fmt::Display for Shown {
    fn fmt<W: fmt::Write>(&self, f: &mut fmt::Formatter<W>) -> fmt::Result {
        match self.0 {
            OptionalNumber::Number(value) => Bits(value).fmt(f),
            OptionalNumber::Absent => f.write_str("absent"),
        }
    }
}

// What an estimator answers over all its channels: the log2 figure, the same in decibels, and the quality of each channel.
// The two estimators that have these fill them in themselves: a trait over both would be longer than what they fill in.
#[derive(Clone, Copy, Debug)]
pub struct FullReadings<'a> {
    pub log2: Result<f32, Refusal>,
    pub db: Result<f32, Refusal>,
    pub qualities: &'a [Result<OptionalNumber, Refusal>],
}

impl fmt::Display for FullReadings<'_> {
    fn fmt<W: fmt::Write>(&self, f: &mut fmt::Formatter<W>) -> fmt::Result {
        f.write_str("full ")?;
        OrRefused(self.log2.map(Bits)).fmt(f)?;
        f.write_str(" ")?;
        OrRefused(self.db.map(Bits)).fmt(f)?;
        for quality in self.qualities {
            f.write_str(" ")?;
            OrRefused(quality.map(Shown)).fmt(f)?;
        }
        f.write_str("\n")
    }
}

// What a channel holds: its hold, its points, its figure, and the rest: sums, extremes, the log2 of the ratio, and the quality before clamping.
impl fmt::Display for ChannelState<'_, FullBandChannel> {
    fn fmt<W: fmt::Write>(&self, f: &mut fmt::Formatter<W>) -> fmt::Result {
        let c = self.index;
        let hold = self.channel.hold_counter_time_domain;
        let inst = self.channel.instantaneous_erle;
        let points = inst.num_points;
        let figures = [
            self.channel.erle_time_domain_log2,
            inst.y2_accum,
            inst.e2_accum,
            inst.max_erle_log2,
            inst.min_erle_log2,
        ];
        write!(f, "fullstate {c} {hold} {points}")?;
        Figures(&figures).fmt(f)?;
        f.write_str(" ")?;
        Shown(inst.erle_log2).fmt(f)?;
        Figures(&[inst.inst_quality_estimate]).fmt(f)?;
        f.write_str("\n")
    }
}

#[cfg(test)]
mod tests {
    use super::*;
    use std::test::Fail;

    // A number of a line is the number's bits.
    #[test]
    fn shows_readings_and_their_refusals(rt: HostRuntime) -> Result<(), Fail> {
        let readings = FullReadings {
            log2: Ok(1.0),
            db: Err(Refusal::BadState),
            qualities: &[
                Ok(OptionalNumber::Number(0.5)),
                Ok(OptionalNumber::Absent),
                Err(Refusal::BadChannelCount),
            ],
        };
        let text = format!(in rt.alloc(); "{readings}")?;
        assert_eq!(rt;
            text.as_str(),
            "full 3F800000 refused 20 3F000000 absent refused 2\n"
        );
        Ok(())
    }

    // A channel as a start leaves it: no point yet, the extremes at -10 and 33.
    #[test]
    fn shows_a_fullband_channel(rt: HostRuntime) -> Result<(), Fail> {
        let channel = FullBandChannel::new(1.0);
        let state = ChannelState {
            index: 3,
            channel: &channel,
        };
        let text = format!(in rt.alloc(); "{state}")?;
        assert_eq!(rt;
            text.as_str(),
            "fullstate 3 0 0 3F800000 00000000 00000000 C1200000 42040000 absent 00000000\n"
        );
        Ok(())
    }
}
