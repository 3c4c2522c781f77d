// What an accepted update does to the records of one channel: the parts' own methods, for callers who have a record alone. A channel's part is handed
// on as a slice, so its flag and powers are parameters.
ghost use Rattle.std.specs.Prelude.{◌≡◌, cond, ◌≤◌, length};
ghost use Rattle.aec3_common.specs.Spectra.{sum};
ghost use Rattle.subband_erle_estimator.specs.Channel.{Block, channel_after as Subband·channel_after};
ghost use Rattle.fullband_channel.specs.Channel.{with_point, one_block_less};

use fullband_erle_estimator::FullBandChannel;
use subband_erle_estimator::{SubbandChannel, SubbandSettings};

// A converged channel learns and decays, another one only decays.
pub fn subband_channel(
    mut c: SubbandChannel,
    settings: SubbandSettings,
    converged: bool,
    x2: &[f32],
    y2: &[f32],
    e2: &[f32],
) -> SubbandChannel
    requires num_points_bound { c.num_points ≤ 6 }
    requires x2_len { (length x2.now ≡ 65) × (length y2.now ≡ 65) × (length e2.now ≡ 65) }
    ensures { result ≡ Subband·channel_after settings (record { converged = converged; render = x2.now; capture = y2.now; residual = e2.now }) c }
{
    c.step_in_place(settings, converged, x2, y2, e2);
    c
}

// A channel that is heard, being converged in a block that is loud enough, accumulates; every hold falls.
pub fn fullband_channel(
    c: FullBandChannel,
    min_erle_log2: f32,
    heard: bool,
    y2: &[f32],
    e2: &[f32],
) -> FullBandChannel
    requires { (c.instantaneous_erle.num_points ≤ 5) × (length y2.now ≡ 65) × (length e2.now ≡ 65) }
    ensures { result ≡ cond heard (one_block_less (with_point min_erle_log2 (sum y2.now) (sum e2.now) c)) (one_block_less c) }
{
    c.after_block(min_erle_log2, heard, y2, e2)
}
