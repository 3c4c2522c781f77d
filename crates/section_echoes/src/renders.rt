// The render power of each section, band by band.
ghost use Rattle.std.specs.Prelude.{◌≡◌, ◌+◌, ◌-◌, ◌*◌, ◌≤◌, ◌<◌, length};
ghost use Rattle.section_echoes.specs.Echoes.{render_share, render_sum};
ghost use Rattle.section_echoes.specs.Steps.{RingFits, bands, walked_positions, with_slot, render_sums};
ghost use Rattle.aec3_common.specs.Settings.{max_filter_length_blocks};

use crate::walk::walked_positions;
use crate::{RenderBuffer, RenderRing, SectionPlan};
use aec3_common::entries::change;
use aec3_common::log2::rounded;
use aec3_common::settings::MAX_FILTER_LENGTH_BLOCKS;

// A walk over a ring: where the slot of each block begins in the spectra, and the share of each channel's power that counts.
#[derive(Drop)]
struct RingWalk<'a> {
    ring: RenderRing,
    spectra: &'a [f32],
    headroom: usize,
    positions: [usize; MAX_FILTER_LENGTH_BLOCKS],
    share: f32,
    ghost fits: { RingFits ring spectra.now },
    ghost walked: { positions ≡ walked_positions ring headroom },
    ghost shared: { share ≡ render_share ring.channels },
}

impl RingWalk<'_> {
    // A share of the power of each channel added to the sums, in the slot that begins at a position.
    fn add_slot(&self, sums: &mut [f32; 65], position: usize)
        requires { position + self.now.ring.channels * 65 ≤ length self.now.spectra.now }
        ensures { sums.new ≡ with_slot self.now.spectra.now position self.now.ring.channels self.now.share sums.old }
    {
        let slot = &self.spectra[position..position + self.ring.channels * 65];
        for powers in slot.as_chunks::<65>().0 {
            change(sums, 0, 65, |k, sum| sum + powers[k] * self.share);
        }
    }

    // The render power of the blocks from one to below another.
    fn section_render(&self, from: usize, to: usize) -> [f32; 65]
        requires { to ≤ max_filter_length_blocks }
        ensures { result ≡ bands (render_sum self.now.ring self.now.spectra.now self.now.headroom from (to - from)) }
    {
        let mut sums = [0.0; 65];
        for &position in &self.positions[from.min(to)..to] {
            self.add_slot(&mut sums, position);
        }
        sums
    }
}

// The render power of each section, where a channel has so many responses.
pub fn render_sums(render: &RenderBuffer, plan: &SectionPlan, count: usize) -> [[f32; 65]; 8]
    requires ring_fits { RingFits render.now.ring render.now.spectra.now }
    requires few_responses { count ≤ max_filter_length_blocks }
    ensures { result ≡ render_sums render.now.ring render.now.spectra.now plan.now.headroom plan.now.boundaries plan.now.num_sections count }
{
    let ring = render.ring;
    let walk = RingWalk {
        ring,
        spectra: render.spectra,
        headroom: plan.headroom,
        positions: walked_positions(ring, plan.headroom),
        share: 1.0 / rounded(ring.channels as u32),
    };
    let mut r = [[0.0; 65]; 8];
    // Only the first sections have sums: `array::from_fn` would need a branch for the places behind them, and a clause of its closure on count.
    for s in 0..plan.num_sections {
        r[s] = walk.section_render(plan.boundaries[s], plan.boundaries[s + 1].min(count));
    }
    r
}
