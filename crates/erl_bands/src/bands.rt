// The figures of all bands one block later.
ghost use Rattle.std.specs.Prelude.{◌≡◌};
ghost use Rattle.std.specs.Float.Ieee.{lt};
ghost use Rattle.erl_bands.specs.Figure.{learnt_erl};
ghost use Rattle.erl_bands.specs.Steps.{new_erl, new_erls, erl_by, hold_by, erls_by, holds_by};

use crate::figure::{HOLD_BLOCKS, doubled, moved_down};
use aec3_common::X2_BAND_ENERGY_THRESHOLD;
use aec3_common::counts::fallen;
use aec3_common::entries::change;
use std::array;

// The ratio that a band learns from. Where render is not above the threshold it is infinite, which is below no ERL: unlike `None` of an
// `Option`, it needs no case of its own where it is compared.
#[tactic(auto, unfolding(crate::specs::Steps::new_erl))]
fn new_erl(render: f32, capture: f32) -> f32
    ensures { result ≡ new_erl render capture }
{
    if render > X2_BAND_ENERGY_THRESHOLD {
        capture / render
    } else {
        f32::INFINITY
    }
}

// The ratios of all bands, each computed once.
pub fn new_erls(render: &[f32; 65], capture: &[f32; 65]) -> [f32; 65]
    ensures { result ≡ new_erls render.now capture.now }
{
    array::from_fn(|k| new_erl(render[k], capture[k]))
}

// The rules of `Figure` once more, for a hold and for an ERL apart: with one loop that makes a figure of each band, an update took up to 15 %
// longer, though fewer instructions. What they share is written once (`moved_down`, `doubled`), and both are proved against one definition.
#[tactic(auto, unfolding(crate::specs::Steps::hold_by, crate::specs::Figure::learnt_hold))]
fn hold_after(new: f32, erl: f32, hold: i32) -> i32
    ensures { result ≡ hold_by new erl hold }
{
    if new < erl {
        fallen(HOLD_BLOCKS)
    } else {
        fallen(hold)
    }
}

#[tactic(auto, unfolding(crate::specs::Figure::learnt_erl))]
fn learnt_erl(new: f32, erl: f32) -> f32
    ensures { result ≡ learnt_erl (lt new erl) new erl }
{
    if new < erl { moved_down(erl, new) } else { erl }
}

// The ERL beside the hold that it has after the block.
#[tactic(auto, unfolding(crate::specs::Steps::erl_by))]
fn erl_after(new: f32, erl: f32, hold: i32) -> f32
    ensures { result ≡ erl_by new erl hold }
{
    doubled(hold, learnt_erl(new, erl))
}

// The holds of bands 1 to 63 after the block.
pub fn moved_holds(holds: &[i32; 63], erl: &[f32; 65], new: &[f32; 65]) -> [i32; 63]
    ensures { result ≡ holds_by new.now erl.now holds.now }
{
    array::from_fn(|k| hold_after(new[k + 1], erl[k + 1], holds[k]))
}

// The ERLs of bands 1 to 63 after the block, beside their holds after it. Bands 0 and 64 are left at 0.
pub fn moved_erl(erl: &[f32; 65], holds: &[i32; 63], new: &[f32; 65]) -> [f32; 65]
    ensures { result ≡ erls_by new.now erl.now holds.now }
{
    let mut r = [0.0; 65];
    change(
        &mut r,
        1,
        64,
        |k, _| erl_after(new[k], erl[k], holds[k - 1]),
    );
    r
}
