// What the bands of a channel learn from new ratios: those of bands 1 to 63 that have one.
ghost use Rattle.std.specs.Prelude.{◌≡◌};
ghost use Rattle.erle_bands.specs.Steps.{all_streams_moved, all_waits_learnt, all_holds_learnt};

use crate::band::{BLOCKS_FOR_ONSET_DETECTION, onset_by, stream_by};
use aec3_common::ErleLimits;
use aec3_common::entries::change;
use filter_sections::max_erle;

// The new ratios, and where low energy was noted. Two tables, and not one of pairs: that one is a copy of the second, and what learns from it
// took 8,104 instructions in place of 7,536.
#[derive(Clone, Copy, Debug)]
pub struct NewRatios<'a> {
    pub ratios: &'a [Option<f32>; 65],
    pub low: &'a [bool; 65],
}

impl NewRatios<'_> {
    // A stream moves.
    pub fn move_stream(&self, stream: &mut [f32; 65], limits: ErleLimits)
        ensures { stream.new ≡ all_streams_moved limits self.now.ratios.now self.now.low.now stream.old }
    {
        let by = |k: usize, erle: f32| {
            let max = max_erle(limits, k);
            stream_by(erle, self.ratios[k], self.low[k], limits.min, max)
        };
        change(stream, 1, 64, by);
    }

    // A band without low energy stops waiting.
    pub fn stop_waiting(&self, waits: &mut [bool; 65])
        ensures { waits.new ≡ all_waits_learnt self.now.ratios.now self.now.low.now waits.old }
    {
        let by = |k: usize, wait: bool| wait & !onset_by(self.ratios[k], self.low[k]);
        change(waits, 1, 64, by);
    }

    // And its hold begins again.
    pub fn hold_again(&self, holds: &mut [i32; 65])
        ensures { holds.new ≡ all_holds_learnt self.now.ratios.now self.now.low.now holds.old }
    {
        let by = |k: usize, hold: i32| {
            if onset_by(self.ratios[k], self.low[k]) {
                BLOCKS_FOR_ONSET_DETECTION
            } else {
                hold
            }
        };
        change(holds, 1, 64, by);
    }
}
