// What an update brings to each subband: its new ratio, and the section that learns.
ghost use Rattle.std.specs.Prelude.{◌≡◌, None, Some, ℕ, ◌≤◌, ◌<◌, if◌then◌else◌};
ghost use Rattle.std.specs.Float.{binary32};
ghost use Rattle.std.specs.Float.Ieee.{div};
ghost use Rattle.correction_factors.specs.Factors.{is_updated, least_active, lesson_of};
ghost use Rattle.correction_factors.specs.Steps.{EachOfEight, lesson_at};

use crate::subbands::in_subband;
use aec3_common::X2_BAND_ENERGY_THRESHOLD;
use std::array;

// A subband that is not updated has no new ratio.
#[derive(Clone, Copy, Debug)]
pub struct Lesson {
    pub ratio: Option<f32>,
    pub section: usize,
}

// The lessons of all subbands, each of one of eight sections.
#[derive(Clone, Copy, Debug)]
pub struct Lessons {
    pub subbands: [Lesson; 6],
    ghost of_eight: { EachOfEight subbands },
}

// What a converged channel learns from: how many sections its filter has, the active section of each band, and the subband sums of render,
// capture and residual in a block.
#[derive(Clone, Copy, Debug)]
pub struct SubbandBlock<'a> {
    pub num_sections: usize,
    pub active: &'a [u32; 65],
    pub x2: &'a [f32; 6],
    pub y2: &'a [f32; 6],
    pub e2: &'a [f32; 6],
    ghost some_sections: { 1 ≤ num_sections },
    ghost few_sections: { num_sections ≤ 8 },
}

#[tactic(auto, unfolding(crate::specs::Factors::is_updated))]
fn is_updated(x2: f32, e2: f32) -> bool
    ensures { result ≡ is_updated x2 e2 }
{
    (x2 > X2_BAND_ENERGY_THRESHOLD) & (e2 > 0.0)
}

fn new_ratio(x2: f32, y2: f32, e2: f32) -> Option<f32>
    ensures { result ≡ (if is_updated x2 e2 then Some (div binary32 y2 e2) else None) }
{
    if is_updated(x2, e2) {
        Some(y2 / e2)
    } else {
        None
    }
}

impl SubbandBlock<'_> {
    // The least active section of a subband's bands; none is above the last section.
    #[tactic(auto, unfolding(crate::specs::Factors::least_active))]
    fn least_active(&self, subband: usize) -> usize
        ensures { result ≡ least_active self.now.num_sections self.now.active.now subband }
    {
        let last = self.num_sections as u32 - 1;
        let active = self.active;
        let least = in_subband(active, subband)
            .iter()
            .fold(last, |least, &section| least.min(section));
        least as usize
    }

    pub(crate) fn lessons(&self) -> Lessons
        ensures { (s : ℕ) → s < 6 → lesson_at result.subbands s ≡ lesson_of self.now.num_sections self.now.active.now self.now.x2.now self.now.y2.now self.now.e2.now s }
    {
        let subbands = array::from_fn(|s| Lesson {
            ratio: new_ratio(self.x2[s], self.y2[s], self.e2[s]),
            section: self.least_active(s),
        });
        Lessons { subbands }
    }
}
