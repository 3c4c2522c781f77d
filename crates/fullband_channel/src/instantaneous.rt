// One channel's instantaneous ERLE: the log2 of the ratio of six points, its extremes, and the quality of the linear filter.
ghost use Rattle.std.specs.Prelude.{◌≡◌};
ghost use Rattle.fullband_channel.specs.Instantaneous.{HasRoom, new_log2, accumulated, greatest_with, least_with, new_quality, quality_with, accumulators_reset, clamped_quality, quality_of, learnt as Instantaneous·learnt, fresh};

use aec3_common::log2::approx_log2;
use aec3_common::{larger, moved, smaller};

pub const EPSILON: f32 = 0.001;

pub const POINTS_TO_ACCUMULATE: u32 = 6;

// A number that may not be there. No Option: the customer's paper asks for these two cases.
#[derive(Clone, Copy, Debug, PartialEq)]
pub enum OptionalNumber {
    Absent,
    Number(f32),
}

// No invariant holds the points below six: a state with more is one that number 20 judges, so the type must be able to hold it. What adds a
// point asks for room instead (`HasRoom`).
#[derive(Clone, Copy, Debug, PartialEq)]
pub struct ErleInstantaneous {
    pub erle_log2: OptionalNumber,
    pub inst_quality_estimate: f32,
    pub max_erle_log2: f32,
    pub min_erle_log2: f32,
    pub y2_accum: f32,
    pub e2_accum: f32,
    pub num_points: u32,
}

// A point: the capture and the residual power of a block, each added up over all bands.
#[derive(Clone, Copy, Debug)]
pub(crate) struct PowerSums {
    pub y2: f32,
    pub e2: f32,
}

// Which ends of 0 to 1 no quality that is answered lies beyond.
#[derive(Clone, Copy, Debug, PartialEq, Eq)]
pub struct QualityClamps {
    pub to_zero: bool,
    pub to_one: bool,
}

fn greatest_with(value: f32, greatest: f32) -> f32
    ensures { result ≡ greatest_with value greatest }
{
    if value > greatest {
        value
    } else {
        greatest - 0.0004
    }
}

fn least_with(value: f32, least: f32) -> f32
    ensures { result ≡ least_with value least }
{
    if value < least { value } else { least + 0.0004 }
}

// How far a value stands between the extremes, or outside them.
#[tactic(auto, unfolding(crate::specs::Instantaneous::new_quality))]
fn new_quality(least: f32, greatest: f32, value: f32) -> f32
    ensures { result ≡ new_quality least greatest value }
{
    if greatest > least {
        (value - least) / (greatest - least)
    } else {
        0.0
    }
}

fn quality_with(new: f32, quality: f32) -> f32
    ensures { result ≡ quality_with new quality }
{
    if new > quality {
        new
    } else {
        moved(quality, new, 0.07)
    }
}

impl QualityClamps {
    #[tactic(auto, unfolding(crate::specs::Instantaneous::clamped_quality))]
    fn clamp(self, quality: f32) -> f32
        ensures { result ≡ clamped_quality self.to_zero self.to_one quality }
    {
        let raised = if self.to_zero {
            larger(quality, 0.0)
        } else {
            quality
        };
        if self.to_one {
            smaller(raised, 1.0)
        } else {
            raised
        }
    }
}

impl ErleInstantaneous {
    #[tactic(auto, unfolding(crate::specs::Instantaneous::fresh, crate::specs::Instantaneous::cleared))]
    pub fn new() -> ErleInstantaneous
        ensures { result ≡ fresh }
    {
        ErleInstantaneous {
            erle_log2: OptionalNumber::Absent,
            inst_quality_estimate: 0.0,
            max_erle_log2: -10.0,
            min_erle_log2: 33.0,
            y2_accum: 0.0,
            e2_accum: 0.0,
            num_points: 0,
        }
    }

    // The extremes stay.
    #[tactic(auto, unfolding(crate::specs::Instantaneous::accumulators_reset, crate::specs::Instantaneous::fresh, crate::specs::Instantaneous::cleared))]
    pub fn reset_accumulators(self) -> ErleInstantaneous
        ensures { result ≡ accumulators_reset self }
    {
        ErleInstantaneous {
            max_erle_log2: self.max_erle_log2,
            min_erle_log2: self.min_erle_log2,
            ..ErleInstantaneous::new()
        }
    }

    // The log2 value that a point brings: none before the sixth, and none without residual.
    #[tactic(auto, unfolding(crate::specs::Instantaneous::new_log2))]
    pub(crate) fn new_erle_log2(self, point: PowerSums) -> OptionalNumber
        requires { HasRoom self }
        ensures { result ≡ new_log2 point.y2 point.e2 self }
    {
        let y2 = self.y2_accum + point.y2;
        let e2 = self.e2_accum + point.e2;
        if (self.num_points + 1 == POINTS_TO_ACCUMULATE) & (e2 > 0.0) {
            OptionalNumber::Number(approx_log2(y2 / e2 + EPSILON))
        } else {
            OptionalNumber::Absent
        }
    }

    // The sums with one more point. The sixth clears them, whether it brought a value or not.
    #[tactic(auto, unfolding(crate::specs::Instantaneous::accumulated, crate::specs::Instantaneous::holding))]
    pub(crate) fn accumulate(self, point: PowerSums) -> ErleInstantaneous
        requires { HasRoom self }
        ensures { result ≡ accumulated point.y2 point.e2 self }
    {
        let num_points = self.num_points + 1;
        if num_points == POINTS_TO_ACCUMULATE {
            ErleInstantaneous {
                y2_accum: 0.0,
                e2_accum: 0.0,
                num_points: 0,
                ..self
            }
        } else {
            ErleInstantaneous {
                y2_accum: self.y2_accum + point.y2,
                e2_accum: self.e2_accum + point.e2,
                num_points,
                ..self
            }
        }
    }

    // Extremes and quality estimate moved by a new log2 value.
    #[tactic(auto, unfolding(crate::specs::Instantaneous::learnt))]
    pub(crate) fn learnt(self, value: f32) -> ErleInstantaneous
        ensures { result ≡ Instantaneous·learnt value self }
    {
        let greatest = greatest_with(value, self.max_erle_log2);
        let least = least_with(value, self.min_erle_log2);
        let quality = new_quality(least, greatest, value);
        ErleInstantaneous {
            erle_log2: OptionalNumber::Number(value),
            inst_quality_estimate: quality_with(quality, self.inst_quality_estimate),
            max_erle_log2: greatest,
            min_erle_log2: least,
            ..self
        }
    }

    // The quality after clamping, absent while the log2 value is.
    #[tactic(auto, unfolding(crate::specs::Instantaneous::quality_of))]
    pub fn quality_estimate(self, clamps: QualityClamps) -> OptionalNumber
        ensures { result ≡ quality_of clamps.to_zero clamps.to_one self }
    {
        match self.erle_log2 {
            OptionalNumber::Number(_) => {
                OptionalNumber::Number(clamps.clamp(self.inst_quality_estimate))
            }
            OptionalNumber::Absent => OptionalNumber::Absent,
        }
    }
}
