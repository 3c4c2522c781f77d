// The active sections of a block.
ghost use Rattle.std.specs.Prelude.{◌≡◌, true, ◌*◌, ◌≤◌, ◌<◌, leb, length};
ghost use Rattle.std.specs.List.{list_all};
ghost use Rattle.aec3_common.specs.Settings.{headroom_blocks, max_filter_length_blocks};
ghost use Rattle.section_echoes.specs.Packed.{total};
ghost use Rattle.section_echoes.specs.Steps.{RingFits, all_active};

use crate::settings::SignalDependentSettings;
use aec3_common::settings::headroom_blocks;
use section_echoes::{FilterResponses, RenderBuffer, SectionPlan, all_active_sections};

// The active section of each channel and band. With one section nothing reads them, and they are not looked for.
pub fn active_sections(
    settings: SignalDependentSettings,
    boundaries: &[usize; 9],
    render: &RenderBuffer,
    responses: &FilterResponses,
) -> [[u32; 65]; 4]
    requires ring_fits { RingFits render.now.ring render.now.spectra.now }
    requires delay_headroom_samples_bound { (1 < settings.layout.num_sections → headroom_blocks settings.layout.delay_headroom_samples < max_filter_length_blocks) × (settings.layout.num_sections ≤ 8) × (length responses.now.blocks.now ≤ 4) }
    requires response_blocks_value { (list_all (λ n. leb n max_filter_length_blocks) responses.now.blocks.now ≡ true) × (length responses.now.responses.now ≡ total responses.now.blocks.now * 65) }
    ensures { 1 < settings.layout.num_sections → result ≡ all_active render.now.ring render.now.spectra.now (headroom_blocks settings.layout.delay_headroom_samples) boundaries.now settings.layout.num_sections responses.now.blocks.now responses.now.responses.now }
{
    if settings.layout.num_sections > 1 {
        let plan = SectionPlan {
            headroom: headroom_blocks(settings.layout.delay_headroom_samples),
            boundaries: *boundaries,
            num_sections: settings.layout.num_sections,
        };
        all_active_sections(render, responses, &plan)
    } else {
        [[0; 65]; 4]
    }
}
