// The active section of each band.
ghost use Rattle.std.specs.Prelude.{◌≡◌, ◌≤◌, length};
ghost use Rattle.section_echoes.specs.Echoes.{active_section};
ghost use Rattle.section_echoes.specs.Steps.{bands, sum_at};

use aec3_common::entries::change;
use std::array;

// The active section of each band, of the sections that have these echo sums. A walk up over the sections that begins again behind each
// sum below 0.9 of the total ends where the walk down does, and takes all bands together. Where not even the last section's sum is
// at least that, it is 0.
pub fn active_sections(sums: &[[f32; 65]]) -> [u32; 65]
    requires { (1 ≤ length sums.now) × (length sums.now ≤ 8) }
    ensures { result ≡ bands (λ k. active_section (length sums.now) (λ s. sum_at sums.now s k)) }
{
    let totals = &sums[sums.len() - 1];
    let targets: [f32; 65] = array::from_fn(|k| 0.9 * totals[k]);
    let mut active = [0; 65];
    for (s, sums) in sums.iter().enumerate() {
        let next = s as u32 + 1;
        change(&mut active, 0, 65, |k, section| {
            if sums[k] >= targets[k] { section } else { next }
        });
    }
    let end = sums.len() as u32;
    change(&mut active, 0, 65, |_, section| {
        if section < end { section } else { 0 }
    });
    active
}
