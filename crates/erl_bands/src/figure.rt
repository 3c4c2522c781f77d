// One figure: an ERL and its hold.
ghost use Rattle.std.specs.Prelude.{◌≡◌, true};
ghost use Rattle.aec3_common.specs.Binary32.{sum_threshold};
ghost use Rattle.aec3_common.specs.Spectra.{sum as Spectra·sum};
ghost use Rattle.erl_bands.specs.Figure.{learnt_erl, learnt as Figure·learnt, doubled as Figure·doubled, rested as Figure·rested, after_block};

use aec3_common::counts::fallen;
use aec3_common::spectra::sum;
use aec3_common::{X2_SUM_ENERGY_THRESHOLD, larger, moved, smaller};

const MIN_ERL: f32 = 0.01;

pub const MAX_ERL: f32 = 1000.0;

pub const HOLD_BLOCKS: i32 = 1000;

// From here down a hold has run out.
const RUN_OUT: i32 = 0;

// The ERL moved towards a new one below it.
#[tactic(auto, unfolding(crate::specs::Figure::learnt_erl))]
pub(crate) fn moved_down(erl: f32, new: f32) -> f32
    ensures { result ≡ learnt_erl true new erl }
{
    larger(moved(erl, new, 0.1), MIN_ERL)
}

#[tactic(auto, unfolding(crate::specs::Figure::doubled))]
pub(crate) fn doubled(hold: i32, erl: f32) -> f32
    ensures { result ≡ Figure·doubled hold erl }
{
    if hold <= RUN_OUT {
        smaller(2.0 * erl, MAX_ERL)
    } else {
        erl
    }
}

#[derive(Clone, Copy, Debug, PartialEq)]
pub struct Figure {
    pub erl: f32,
    pub hold: i32,
}

impl Figure {
    #[tactic(auto, unfolding(crate::specs::Figure::learnt, crate::specs::Figure::learnt_erl, crate::specs::Figure::learnt_hold))]
    fn learnt(self, threshold: f32, render: f32, capture: f32) -> Figure
        ensures { result ≡ Figure·learnt threshold render capture self }
    {
        if (render > threshold) & (capture / render < self.erl) {
            Figure {
                erl: moved_down(self.erl, capture / render),
                hold: HOLD_BLOCKS,
            }
        } else {
            self
        }
    }

    #[tactic(auto, unfolding(crate::specs::Figure::rested))]
    fn rested(self) -> Figure
        ensures { result ≡ Figure·rested self }
    {
        let hold = fallen(self.hold);
        Figure {
            erl: doubled(hold, self.erl),
            hold,
        }
    }

    // The time-domain figure one block later. The captures are added up only where their sum is looked at.
    #[tactic(auto, unfolding(crate::specs::Figure::after_block, crate::specs::Figure::learnt, crate::specs::Figure::learnt_erl, crate::specs::Figure::learnt_hold))]
    pub fn time_domain_after(self, render: &[f32], capture: &[f32]) -> Figure
        ensures { result ≡ after_block sum_threshold (Spectra·sum render.now) (Spectra·sum capture.now) self }
    {
        let render_sum = sum(render);
        if render_sum > X2_SUM_ENERGY_THRESHOLD {
            self.learnt(X2_SUM_ENERGY_THRESHOLD, render_sum, sum(capture))
                .rested()
        } else {
            self.rested()
        }
    }
}
