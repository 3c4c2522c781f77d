// Kinds 0130 to 0133: the subband estimator.
#![tactic(auto)]

use aec3_common::{ErleLimits, Refusal};
use channel_lines::{ChannelState, ChannelStreams};
use script::{Fields, Figures, FromFields, Malformed, Replayed};
use std::fmt;
use subband_erle_estimator::{SubbandErleEstimator, SubbandSettings, erle};
use update_bodies::BlockLists;

#[derive(Clone, Copy, Debug)]
pub struct ReplayedSubband(SubbandErleEstimator);

impl Replayed for ReplayedSubband {
    type Settings = SubbandSettings;

    type Update = BlockLists;

    type Change = ();

    const NAME: &'static str = "subband";

    const REPEATS: bool = true;

    fn settings_in(fields: &mut Fields) -> Result<SubbandSettings, Malformed> {
        Ok(SubbandSettings {
            limits: ErleLimits::from_fields(fields)?,
            onset_detection: fields.flag()?,
            num_capture_channels: fields.count()?,
        })
    }

    fn start(settings: SubbandSettings) -> Result<Self, Refusal> {
        SubbandErleEstimator::new(settings).map(ReplayedSubband)
    }

    fn update(&mut self, update: &BlockLists) -> Result<(), Refusal> {
        self.0.update(&update.block()).settle(&mut self.0)
    }

    fn reset(&mut self, _change: ()) -> Result<(), Refusal> {
        self.0.reset().settle(&mut self.0)
    }
}

// For each channel what the library shows of it, the compensated stream as it is held, and the inner state. Records that the
// state does not use are not shown.
impl fmt::Display for ReplayedSubband {
    fn fmt<W: fmt::Write>(&self, f: &mut fmt::Formatter<W>) -> fmt::Result {
        let settings = self.0.settings;
        let shown = self.0.channels.iter().take(settings.num_capture_channels);
        for (index, channel) in shown.enumerate() {
            let held = channel.erle_onset_compensated.as_slice();
            let plain = channel.erle.as_slice();
            let streams = ChannelStreams {
                index,
                plain,
                compensated: erle(plain, held, true, settings.onset_detection),
                unbounded: &channel.erle_unbounded,
                onsets: &channel.erle_onsets,
            };
            let state = ChannelState { index, channel };
            write!(f, "{streams}rawcomp {index}{}\n{state}", Figures(held))?;
        }
        Ok(())
    }
}

#[cfg(test)]
mod tests {
    use super::*;
    use script::{ReadLists, Record, Standing};
    use std::test::Fail;

    // One channel, without a converged filter and without power.
    #[test]
    fn replays_a_start_and_an_update(rt: HostRuntime) -> Result<(), Fail> {
        let mut standing: Standing<ReplayedSubband> = Standing::new();
        let mut lists = BlockLists::none();
        let start = [
            48, 1, 0, 0, 128, 63, 0, 0, 128, 64, 0, 0, 192, 63, 1, 0, 0, 0, 1, 0, 0, 0,
        ];
        let mut text = String::new(rt.alloc());
        standing.replay(Record::new(&start)?, &mut lists, &mut text)?;
        assert!(rt; text.starts_with("subband start\n"));
        let mut update = [
            49, 1, 1, 0, 0, 0, 1, 0, 0, 0, 65, 0, 0, 0, 65, 0, 0, 0, 65, 0, 0, 0,
        ]
        .to_vec(rt.alloc())?;
        update.resize(803, 0)?;
        text.clear();
        standing.replay(Record::new(&update)?, &mut lists, &mut text)?;
        assert!(rt; text.starts_with("subband ok\n"));
        Ok(())
    }
}
