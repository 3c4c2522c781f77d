// One band: how its streams move, how long it is held, how its compensated value decays.
ghost use Rattle.std.specs.Prelude.{◌≡◌, cond, not, ◌&&◌, is_some, unwrap_or};
ghost use Rattle.std.specs.Float.{nan};
ghost use Rattle.erle_bands.specs.Band.{share as Band·share, stream_moved, new_ratio, hold_less, decayed as Band·decayed, compensated_beside, waits_beside};

use aec3_common::counts::fallen;
use aec3_common::{clamp, larger, moved};

// For so many blocks a band with a new ratio without low energy is held.
pub const BLOCKS_FOR_ONSET_DETECTION: i32 = 250;

// At so many blocks or less its compensated value decays.
const BLOCKS_OF_DECAY: i32 = 150;

// The share of the difference by which a stream moves.
fn share(new_erle: f32, low_render_energy: bool, erle: f32) -> f32
    ensures { result ≡ Band·share new_erle low_render_energy erle }
{
    if new_erle < erle {
        if low_render_energy { 0.0 } else { 0.1 }
    } else {
        0.05
    }
}

// A stream's value with a new ratio.
#[tactic(auto, unfolding(crate::specs::Band::stream_moved))]
fn update_erle_band(
    erle: f32,
    new_erle: f32,
    low_render_energy: bool,
    min_erle: f32,
    max_erle: f32,
) -> f32
    ensures { result ≡ stream_moved min_erle max_erle new_erle low_render_energy erle }
{
    let alpha = share(new_erle, low_render_energy, erle);
    clamp(moved(erle, new_erle, alpha), min_erle, max_erle)
}

// The ratio of the sums, where the residual sum is above 0.
pub fn new_ratio(y2: f32, e2: f32) -> Option<f32>
    ensures { result ≡ new_ratio y2 e2 }
{
    if e2 > 0.0 { Some(y2 / e2) } else { None }
}

// The same where there is a new ratio; elsewhere the value stays.
pub fn stream_by(
    erle: f32,
    ratio: Option<f32>,
    low_render_energy: bool,
    min_erle: f32,
    max_erle: f32,
) -> f32
    ensures { result ≡ cond (is_some ratio) (stream_moved min_erle max_erle (unwrap_or ratio nan) low_render_energy erle) erle }
{
    match ratio {
        Some(new_erle) => update_erle_band(erle, new_erle, low_render_energy, min_erle, max_erle),
        None => erle,
    }
}

// Whether there is one without low energy: then the band waits no longer, and its hold begins again.
pub fn onset_by(ratio: Option<f32>, low_render_energy: bool) -> bool
    ensures { result ≡ is_some ratio && not low_render_energy }
{
    ratio.is_some() & !low_render_energy
}

// A hold one block later.
#[tactic(auto, unfolding(crate::specs::Band::hold_less))]
pub fn hold_less(hold: i32) -> i32
    ensures { result ≡ hold_less hold }
{
    fallen(hold).max(0)
}

// A compensated value that decays towards the onset value.
#[tactic(auto, unfolding(crate::specs::Band::decayed))]
fn decayed(min_erle: f32, onset: f32, erle: f32) -> f32
    ensures { result ≡ Band·decayed min_erle onset erle }
{
    if erle > onset {
        larger(larger(onset, 0.97 * erle), min_erle)
    } else {
        erle
    }
}

// The compensated value beside the hold after the block.
#[tactic(auto, unfolding(crate::specs::Band::compensated_beside))]
pub fn compensated_beside(min_erle: f32, hold: i32, onset: f32, erle: f32) -> f32
    ensures { result ≡ compensated_beside min_erle hold onset erle }
{
    if hold <= BLOCKS_OF_DECAY {
        decayed(min_erle, onset, erle)
    } else {
        erle
    }
}

// Whether the band waits, beside the hold after the block.
#[tactic(auto, unfolding(crate::specs::Band::waits_beside))]
pub fn wait_beside(hold: i32, waits: bool) -> bool
    ensures { result ≡ waits_beside hold waits }
{
    (hold <= 0) | waits
}
