// Kinds 0140 to 0142: the signal-dependent estimator.
#![tactic(auto)]

use aec3_common::{ErleLimits, FilterLayout, Refusal};
use script::{Fields, Figures, FromFields, Malformed, Replayed};
use signal_dependent_erle_estimator::{
    Averages, Inputs, SignalDependentErleEstimator, SignalDependentSettings, erle,
};
use std::fmt;
use update_bodies::AveragedLists;

#[derive(Clone, Copy, Debug)]
pub struct ReplayedSignal(SignalDependentErleEstimator);

impl Replayed for ReplayedSignal {
    type Settings = SignalDependentSettings;

    type Update = AveragedLists;

    type Change = ();

    const NAME: &'static str = "signal";

    const REPEATS: bool = false;

    fn settings_in(fields: &mut Fields) -> Result<SignalDependentSettings, Malformed> {
        Ok(SignalDependentSettings {
            limits: ErleLimits::from_fields(fields)?,
            onset_detection: fields.flag()?,
            num_capture_channels: fields.count()?,
            layout: FilterLayout::from_fields(fields)?,
        })
    }

    fn start(settings: SignalDependentSettings) -> Result<Self, Refusal> {
        SignalDependentErleEstimator::new(settings).map(ReplayedSignal)
    }

    fn update(&mut self, update: &AveragedLists) -> Result<(), Refusal> {
        let averages = Averages {
            plain: update.average(),
            compensated: update.average_compensated(),
        };
        let inputs = Inputs {
            render: update.lists.render(),
            responses: update.lists.responses(),
            block: update.lists.block(),
        };
        self.0.update(&inputs, &averages).settle(&mut self.0)
    }

    fn reset(&mut self, _change: ()) -> Result<(), Refusal> {
        self.0.reset().settle(&mut self.0)
    }
}

// For each channel the plain stream, and the one that is answered when the compensated stream is asked for. Records that the
// state does not use are not shown.
impl fmt::Display for ReplayedSignal {
    fn fmt<W: fmt::Write>(&self, f: &mut fmt::Formatter<W>) -> fmt::Result {
        let settings = self.0.settings;
        let shown = self.0.channels.iter().take(settings.num_capture_channels);
        for (c, channel) in shown.enumerate() {
            let plain = channel.erle.as_slice();
            let held = channel.erle_onset_compensated.as_slice();
            let compensated = erle(plain, held, true, settings.onset_detection);
            writeln!(f, "sigplain {c}{}", Figures(plain))?;
            writeln!(f, "sigcomp {c}{}", Figures(compensated))?;
        }
        Ok(())
    }
}

#[cfg(test)]
mod tests {
    use super::*;
    use script::{ReadLists, Record, Standing};
    use std::test::Fail;

    // One channel whose response has no blocks, a ring of two slots, and no power.
    #[test]
    fn replays_a_start_and_an_update(rt: HostRuntime) -> Result<(), Fail> {
        let mut standing: Standing<ReplayedSignal> = Standing::new();
        let mut lists = AveragedLists::none();
        let start = [
            64, 1, 0, 0, 128, 63, 0, 0, 128, 64, 0, 0, 192, 63, 1, 0, 0, 0, 1, 0, 0, 0, 1, 0, 0, 0,
            1, 0, 0, 0, 0, 0, 0, 0,
        ];
        let mut text = String::new(rt.alloc());
        standing.replay(Record::new(&start)?, &mut lists, &mut text)?;
        assert!(rt; text.starts_with("signal start\n"));
        let mut update = [
            65, 1, 1, 0, 0, 0, 2, 0, 0, 0, 1, 0, 0, 0, 0, 0, 0, 0, 1, 0, 0, 0, 65, 0, 0, 0, 65, 0,
            0, 0, 65, 0, 0, 0, 130, 0, 0, 0, 65, 0, 0, 0, 65, 0, 0, 0,
        ]
        .to_vec(rt.alloc())?;
        update.resize(1871, 0)?;
        text.clear();
        standing.replay(Record::new(&update)?, &mut lists, &mut text)?;
        assert!(rt; text.starts_with("signal ok\n"));
        Ok(())
    }
}
