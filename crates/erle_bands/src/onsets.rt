// What every block moves where onset detection is on: holds, compensated values and waiting, of bands 1 to 63.
ghost use Rattle.std.specs.Prelude.{◌≡◌, true};
ghost use Rattle.erle_bands.specs.Steps.{all_holds_less, all_compensated_beside, all_waits_beside};

use crate::band::{compensated_beside, hold_less, wait_beside};
use aec3_common::entries::change;

// One block less to hold.
pub fn lower_all(holds: &mut [i32; 65])
    ensures { holds.new ≡ all_holds_less true holds.old }
{
    change(holds, 1, 64, |_, hold| hold_less(hold));
}

// The same where onset detection is on; elsewhere each hold stays.
pub fn lower_holds(holds: &mut [i32; 65], on: bool)
    ensures { holds.new ≡ all_holds_less on holds.old }
{
    if on {
        lower_all(holds);
    }
}

// Compensated values beside the holds after the block.
pub fn decay_all(erle: &mut [f32; 65], onsets: &[f32; 65], holds: &[i32; 65], min: f32)
    ensures { erle.new ≡ all_compensated_beside true min holds.now onsets.now erle.old }
{
    let by = |k: usize, erle: f32| compensated_beside(min, holds[k], onsets[k], erle);
    change(erle, 1, 64, by);
}

// The same where onset detection is on; elsewhere each value stays.
pub fn decay_compensated(
    erle: &mut [f32; 65],
    onsets: &[f32; 65],
    holds: &[i32; 65],
    min: f32,
    on: bool,
)
    ensures { erle.new ≡ all_compensated_beside on min holds.now onsets.now erle.old }
{
    if on {
        decay_all(erle, onsets, holds, min);
    }
}

// Waiting beside the holds after the block.
pub fn wait_all(waits: &mut [bool; 65], holds: &[i32; 65])
    ensures { waits.new ≡ all_waits_beside true holds.now waits.old }
{
    change(waits, 1, 64, |k, wait| wait_beside(holds[k], wait));
}

// The same where onset detection is on; elsewhere each band waits as before.
pub fn wait_again(waits: &mut [bool; 65], holds: &[i32; 65], on: bool)
    ensures { waits.new ≡ all_waits_beside on holds.now waits.old }
{
    if on {
        wait_all(waits, holds);
    }
}
