// A stream of a channel, corrected band by band.
ghost use Rattle.std.specs.Prelude.{◌≡◌, ℕ, ◌≤◌, ◌<◌, length, get_or};
ghost use Rattle.correction_factors.specs.Streams.{corrected_band, last_copied};
ghost use Rattle.correction_factors.specs.Steps.{first_band, factors_of, corrected_by};

use aec3_common::entries::change;
use aec3_common::{ErleLimits, clamp};
use filter_sections::{max_erle, subband_bands};

// Where the bands that map to a subband begin: band 0 maps to subband 0, though it is summed in none.
#[tactic(auto, unfolding(crate::specs::Steps::first_band, filter_sections::specs::Subbands::subband_bands))]
fn first_band(subband: usize) -> usize
    ensures { result ≡ first_band subband }
{
    if subband == 0 {
        0
    } else {
        subband_bands(subband).start
    }
}

// The factor of each band: that of its own active section.
// Not in one pass by `array::from_fn`, which has to seek each band's subband: tried, and a channel's update took more than twice as long.
pub fn band_factors(factors: &[f32; 48], active: &[u32; 65]) -> [f32; 65]
    requires { (k : ℕ) → get_or active.now k 0 < 8 }
    ensures { result ≡ factors_of factors.now active.now }
{
    let mut r = [1.0; 65];
    for subband in 0..6 {
        let from = first_band(subband);
        let to = first_band(subband + 1);
        change(&mut r, from, to, |k, _| {
            factors[active[k] as usize * 6 + subband]
        });
    }
    r
}

#[tactic(auto, unfolding(crate::specs::Streams::corrected_band))]
fn corrected_band(average: f32, factor: f32, limits: ErleLimits, k: usize) -> f32
    ensures { result ≡ corrected_band limits.min limits.max_l limits.max_h k average factor }
{
    let max = max_erle(limits, k);
    clamp(average * factor, limits.min, max)
}

// Band 64 copies 63.
pub fn copy_last(stream: &mut [f32; 65])
    ensures { stream.new ≡ last_copied stream.old }
{
    let last = stream[63];
    stream[64] = last;
}

// Bands 0 to 63 of an average stream times their factors, clamped; 64 copies 63.
pub fn correct_stream(
    stream: &mut [f32; 65],
    average: &[f32],
    factors: &[f32; 65],
    limits: ErleLimits,
)
    requires { length average.now ≡ 65 }
    ensures { stream.new ≡ last_copied (corrected_by limits.min limits.max_l limits.max_h factors.now average.now) }
{
    change(stream, 0, 65, |k, _| {
        corrected_band(average[k], factors[k], limits, k)
    });
    copy_last(stream);
}
