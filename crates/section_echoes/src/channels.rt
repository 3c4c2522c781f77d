// The active sections of all channels.
ghost use Rattle.std.specs.Prelude.{◌≡◌, true, ◌*◌, ◌≤◌, leb, length};
ghost use Rattle.std.specs.List.{list_all};
ghost use Rattle.section_echoes.specs.Packed.{total};
ghost use Rattle.section_echoes.specs.Steps.{RingFits, render_sums, all_active};
ghost use Rattle.aec3_common.specs.Settings.{max_filter_length_blocks};

use crate::active::active_sections;
use crate::echoes::echo_sums;
use crate::renders::render_sums;
use crate::{FilterResponses, RenderBuffer, SectionPlan};

// Render sums made anew where they were made for another number of responses. Channels with as many share them.
fn renew_render_sums(
    sums: &mut [[f32; 65]; 8],
    made_for: usize,
    render: &RenderBuffer,
    plan: &SectionPlan,
    count: usize,
)
    requires ring_fits { RingFits render.now.ring render.now.spectra.now }
    requires few_responses { count ≤ max_filter_length_blocks }
    requires sums_value { sums.old ≡ render_sums render.now.ring render.now.spectra.now plan.now.headroom plan.now.boundaries plan.now.num_sections made_for }
    ensures { sums.new ≡ render_sums render.now.ring render.now.spectra.now plan.now.headroom plan.now.boundaries plan.now.num_sections count }
{
    if count != made_for {
        *sums = render_sums(render, plan, count);
    }
}

// The active section of each band, channel by channel; zeros behind the last. The render sums begin as zeros, which are those for no
// responses.
pub fn all_active_sections(
    render: &RenderBuffer,
    responses: &FilterResponses,
    plan: &SectionPlan,
) -> [[u32; 65]; 4]
    requires ring_fits { RingFits render.now.ring render.now.spectra.now }
    requires few_channels { length responses.now.blocks.now ≤ 4 }
    requires short_responses { list_all (λ n. leb n max_filter_length_blocks) responses.now.blocks.now ≡ true }
    requires packed { length responses.now.responses.now ≡ total responses.now.blocks.now * 65 }
    ensures { result ≡ all_active render.now.ring render.now.spectra.now plan.now.headroom plan.now.boundaries plan.now.num_sections responses.now.blocks.now responses.now.responses.now }
{
    let mut r = [[0; 65]; 4];
    let mut sums = [[0.0; 65]; 8];
    let mut made_for = 0;
    let mut rest = responses.responses;
    for (ch, &count) in responses.blocks.iter().enumerate() {
        renew_render_sums(&mut sums, made_for, render, plan, count);
        made_for = count;
        let (own, later) = rest.split_at(count * 65);
        rest = later;
        let echoes = echo_sums(&sums, own, plan);
        r[ch] = active_sections(&echoes[..plan.num_sections]);
    }
    r
}
