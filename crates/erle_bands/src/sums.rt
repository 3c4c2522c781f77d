// What a channel holds of its blocks, band by band.
ghost use Rattle.std.specs.Prelude.{◌≡◌, false, length};
ghost use Rattle.erle_bands.specs.Steps.{sums_with, lows_with, ratios_of, new_ratios_of};

use crate::band::new_ratio;
use aec3_common::X2_BAND_ENERGY_THRESHOLD;
use aec3_common::entries::change;
use std::array;

// Powers added to the held sums.
pub fn accumulate(sums: &mut [f32; 65], powers: &[f32])
    requires { length powers.now ≡ 65 }
    ensures { sums.new ≡ sums_with false sums.old powers.now }
{
    change(sums, 0, 65, |k, sum| sum + powers[k]);
}

// The same, or to sums that begin anew.
pub fn add_powers(sums: &mut [f32; 65], powers: &[f32], anew: bool)
    requires { length powers.now ≡ 65 }
    ensures { sums.new ≡ sums_with anew sums.old powers.now }
{
    if anew {
        *sums = [0.0; 65];
    }
    accumulate(sums, powers);
}

// Low energy noted beside the sums, where render is below the threshold.
pub fn accumulate_low_energy(low: &mut [bool; 65], x2: &[f32])
    requires { length x2.now ≡ 65 }
    ensures { low.new ≡ lows_with false low.old x2.now }
{
    change(
        low,
        0,
        65,
        |k, low| low | (x2[k] < X2_BAND_ENERGY_THRESHOLD),
    );
}

// The same, or beside sums that begin anew.
pub fn note_low_energy(low: &mut [bool; 65], x2: &[f32], anew: bool)
    requires { length x2.now ≡ 65 }
    ensures { low.new ≡ lows_with anew low.old x2.now }
{
    if anew {
        *low = [false; 65];
    }
    accumulate_low_energy(low, x2);
}

// The ratios of the sums, whatever the residual.
pub fn ratios(y2: &[f32; 65], e2: &[f32; 65]) -> [f32; 65]
    ensures { result ≡ ratios_of y2.now e2.now }
{
    array::from_fn(|k| y2[k] / e2[k])
}

// Those that bands learn from, each computed once: there is one where the residual sum is above 0.
pub fn new_ratios(y2: &[f32; 65], e2: &[f32; 65]) -> [Option<f32>; 65]
    ensures { result ≡ new_ratios_of y2.now e2.now }
{
    array::from_fn(|k| new_ratio(y2[k], e2[k]))
}
