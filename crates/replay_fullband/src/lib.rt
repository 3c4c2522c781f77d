// Kinds 0150 to 0153: the fullband estimator.
#![tactic(auto)]

use aec3_common::settings::MAX_CAPTURE_CHANNELS;
use aec3_common::{ErleLimits, Refusal};
use channel_lines::{ChannelState, FullReadings};
use fullband_erle_estimator::{FullBandErleEstimator, FullBandSettings, QualityClamps};
use script::{Fields, FromFields, Malformed, Replayed};
use std::{array, fmt};
use update_bodies::BlockLists;

#[derive(Clone, Copy, Debug)]
pub struct ReplayedFullband(FullBandErleEstimator);

impl Replayed for ReplayedFullband {
    type Settings = FullBandSettings;

    type Update = BlockLists;

    type Change = ();

    const NAME: &'static str = "fullband";

    const REPEATS: bool = true;

    fn settings_in(fields: &mut Fields) -> Result<FullBandSettings, Malformed> {
        Ok(FullBandSettings {
            limits: ErleLimits::from_fields(fields)?,
            clamps: QualityClamps {
                to_zero: fields.flag()?,
                to_one: fields.flag()?,
            },
            num_capture_channels: fields.count()?,
        })
    }

    fn start(settings: FullBandSettings) -> Result<Self, Refusal> {
        FullBandErleEstimator::new(settings).map(ReplayedFullband)
    }

    fn update(&mut self, update: &BlockLists) -> Result<(), Refusal> {
        self.0.update(&update.block()).settle(&mut self.0)
    }

    fn reset(&mut self, _change: ()) -> Result<(), Refusal> {
        self.0.reset().settle(&mut self.0)
    }
}

// What the estimator answers over all its channels, and a line for each. Records that the state does not use are not shown.
impl fmt::Display for ReplayedFullband {
    fn fmt<W: fmt::Write>(&self, f: &mut fmt::Formatter<W>) -> fmt::Result {
        let num_channels = self.0.settings.num_capture_channels;
        let qualities: [_; MAX_CAPTURE_CHANNELS] = array::from_fn(|c| self
            .0
            .linear_quality_estimate(c));
        let readings = FullReadings {
            log2: self.0.fullband_erle_log2(),
            db: self.0.fullband_erle_db(),
            qualities: &qualities[..num_channels.min(MAX_CAPTURE_CHANNELS)],
        };
        write!(f, "{readings}")?;
        for (index, channel) in self.0.channels.iter().take(num_channels).enumerate() {
            write!(f, "{}", ChannelState { index, channel })?;
        }
        Ok(())
    }
}

#[cfg(test)]
mod tests {
    use super::*;
    use script::{ReadLists, Record, Standing};
    use std::test::Fail;

    // One channel, without a converged filter and without power.
    #[test]
    fn replays_a_start_and_an_update(rt: HostRuntime) -> Result<(), Fail> {
        let mut standing: Standing<ReplayedFullband> = Standing::new();
        let mut lists = BlockLists::none();
        let start = [
            80, 1, 0, 0, 128, 63, 0, 0, 128, 64, 0, 0, 192, 63, 0, 0, 0, 0, 0, 0, 0, 0, 1, 0, 0, 0,
        ];
        let mut text = String::new(rt.alloc());
        standing.replay(Record::new(&start)?, &mut lists, &mut text)?;
        assert!(rt; text.starts_with("fullband start\n"));
        let mut update = [
            81, 1, 1, 0, 0, 0, 1, 0, 0, 0, 65, 0, 0, 0, 65, 0, 0, 0, 65, 0, 0, 0,
        ]
        .to_vec(rt.alloc())?;
        update.resize(803, 0)?;
        text.clear();
        standing.replay(Record::new(&update)?, &mut lists, &mut text)?;
        assert!(rt; text.starts_with("fullband ok\n"));
        Ok(())
    }
}
