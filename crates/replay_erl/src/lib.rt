// Kinds 0110 to 0112: the ERL estimator.
#![tactic(auto)]

ghost use Rattle.replay_erl.specs.Updates.{ErlReads};

use aec3_common::Refusal;
use erl_estimator::{ErlBlock, ErlEstimator};
use script::{Bits, Fields, Figures, Flags, Malformed, ReadLists, Replayed, Spectra, Table};
use std::fmt;

#[derive(Clone, Copy, Debug)]
pub struct ReplayedErl(ErlEstimator);

// An update's channels and lists.
#[derive(Debug, Drop)]
pub struct ErlLists {
    num_capture_channels: usize,
    num_render_channels: usize,
    converged_filters: Flags,
    render_spectra: Spectra,
    capture_spectra: Spectra,
}

impl ErlLists {
    fn block(&self) -> ErlBlock<'_> {
        ErlBlock {
            num_capture_channels: self.num_capture_channels,
            num_render_channels: self.num_render_channels,
            converged_filters: self.converged_filters.as_slice(),
            render_spectra: self.render_spectra.as_slice(),
            capture_spectra: self.capture_spectra.as_slice(),
        }
    }
}

// Capture channels, render channels, the lengths of three lists, and the lists: flags, renders, captures.
impl ReadLists for ErlLists {
    ghost reads = { ErlReads };

    fn none() -> ErlLists {
        ErlLists {
            num_capture_channels: 0,
            num_render_channels: 0,
            converged_filters: Table::filled_with(false),
            render_spectra: Table::filled_with(0.0),
            capture_spectra: Table::filled_with(0.0),
        }
    }

    fn read_fields(&mut self, fields: &mut Fields) -> Result<(), Malformed> {
        self.num_capture_channels = fields.count()?;
        self.num_render_channels = fields.count()?;
        let flags = fields.word()?;
        let render_floats = fields.word()?;
        let capture_floats = fields.word()?;
        fields.flags(flags, &mut self.converged_filters)?;
        fields.floats(render_floats, &mut self.render_spectra)?;
        fields.floats(capture_floats, &mut self.capture_spectra)
    }
}

impl Replayed for ReplayedErl {
    // The startup count.
    type Settings = u32;

    type Update = ErlLists;

    type Change = ();

    const NAME: &'static str = "erl";

    const REPEATS: bool = false;

    fn settings_in(fields: &mut Fields) -> Result<u32, Malformed> {
        fields.word()
    }

    fn start(startup_phase_length_blocks: u32) -> Result<Self, Refusal> {
        Ok(ReplayedErl(ErlEstimator::new(startup_phase_length_blocks)))
    }

    fn update(&mut self, update: &ErlLists) -> Result<(), Refusal> {
        self.0.update(&update.block()).settle(&mut self.0)
    }

    fn reset(&mut self, _change: ()) -> Result<(), Refusal> {
        self.0 = self.0.reset();
        Ok(())
    }
}

// The figures of the bands and that of the time domain.
impl fmt::Display for ReplayedErl {
    fn fmt<W: fmt::Write>(&self, f: &mut fmt::Formatter<W>) -> fmt::Result {
        let time_domain = Bits(self.0.erl_time_domain);
        writeln!(f, "erl{} {time_domain}", Figures(&self.0.erl))
    }
}

#[cfg(test)]
mod tests {
    use super::*;
    use script::{Record, Standing};
    use std::test::Fail;

    // One channel of each sort, without a converged filter and without power.
    #[test]
    fn replays_a_start_and_an_update(rt: HostRuntime) -> Result<(), Fail> {
        let mut standing: Standing<ReplayedErl> = Standing::new();
        let mut lists = ErlLists::none();
        let start = [16, 1, 100, 0, 0, 0];
        let mut text = String::new(rt.alloc());
        standing.replay(Record::new(&start)?, &mut lists, &mut text)?;
        assert!(rt; text.starts_with("erl start\n"));
        let mut update = [
            17, 1, 1, 0, 0, 0, 1, 0, 0, 0, 1, 0, 0, 0, 65, 0, 0, 0, 65, 0, 0, 0,
        ]
        .to_vec(rt.alloc())?;
        update.resize(543, 0)?;
        text.clear();
        standing.replay(Record::new(&update)?, &mut lists, &mut text)?;
        assert!(rt; text.starts_with("erl ok\n"));
        Ok(())
    }
}
