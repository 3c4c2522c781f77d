// Kinds 0120 to 0122: the whole ERLE estimator.
#![tactic(auto)]

use aec3_common::{ErleLimits, FilterLayout, Refusal};
use erle_estimator::{ErleEstimator, ErleSettings, Inputs};
use erle_lines::ErleFigures;
use script::{Fields, FromFields, Malformed, Replayed};
use std::fmt;
use update_bodies::RingLists;

#[derive(Clone, Copy, Debug)]
pub struct ReplayedErle(pub ErleEstimator);

// The startup count and the settings of a start.
#[derive(Clone, Copy, Debug)]
pub struct ErleStart {
    startup_phase_length_blocks: u32,
    settings: ErleSettings,
}

impl Replayed for ReplayedErle {
    type Settings = ErleStart;

    type Update = RingLists;

    // Whether the delay changed.
    type Change = bool;

    const NAME: &'static str = "erle";

    const REPEATS: bool = false;

    fn settings_in(fields: &mut Fields) -> Result<ErleStart, Malformed> {
        Ok(ErleStart {
            startup_phase_length_blocks: fields.word()?,
            settings: ErleSettings {
                limits: ErleLimits::from_fields(fields)?,
                onset_detection: fields.flag()?,
                num_capture_channels: fields.count()?,
                layout: FilterLayout::from_fields(fields)?,
                clamp_quality_estimate_to_zero: fields.flag()?,
                clamp_quality_estimate_to_one: fields.flag()?,
            },
        })
    }

    fn start(start: ErleStart) -> Result<Self, Refusal> {
        ErleEstimator::new(start.startup_phase_length_blocks, start.settings).map(ReplayedErle)
    }

    fn update(&mut self, update: &RingLists) -> Result<(), Refusal> {
        let inputs = Inputs {
            render: update.render(),
            responses: update.responses(),
            block: update.block(),
        };
        self.0.update(&inputs).settle(&mut self.0)
    }

    fn reset(&mut self, delay_change: bool) -> Result<(), Refusal> {
        self.0.reset(delay_change).settle(&mut self.0)
    }
}

impl fmt::Display for ReplayedErle {
    fn fmt<W: fmt::Write>(&self, f: &mut fmt::Formatter<W>) -> fmt::Result {
        write!(f, "{}", ErleFigures(&self.0))
    }
}

#[cfg(test)]
mod tests {
    use super::*;
    use script::{ReadLists, Record, Standing};
    use std::test::Fail;

    // One channel whose response has no blocks, a ring of two slots, and no power.
    #[test]
    fn replays_a_start_and_an_update(rt: HostRuntime) -> Result<(), Fail> {
        let mut standing: Standing<ReplayedErle> = Standing::new();
        let mut lists = RingLists::none();
        let start = [
            32, 1, 0, 0, 0, 0, 0, 0, 128, 63, 0, 0, 128, 64, 0, 0, 192, 63, 1, 0, 0, 0, 1, 0, 0, 0,
            1, 0, 0, 0, 1, 0, 0, 0, 0, 0, 0, 0, 0, 0, 0, 0, 0, 0, 0, 0,
        ];
        let mut text = String::new(rt.alloc());
        standing.replay(Record::new(&start)?, &mut lists, &mut text)?;
        assert!(rt; text.starts_with("erle start\n"));
        let mut update = [
            33, 1, 1, 0, 0, 0, 2, 0, 0, 0, 1, 0, 0, 0, 0, 0, 0, 0, 1, 0, 0, 0, 65, 0, 0, 0, 65, 0,
            0, 0, 65, 0, 0, 0, 130, 0, 0, 0,
        ]
        .to_vec(rt.alloc())?;
        update.resize(1343, 0)?;
        text.clear();
        standing.replay(Record::new(&update)?, &mut lists, &mut text)?;
        assert!(rt; text.starts_with("erle ok\n"));
        Ok(())
    }
}
