// The echo of each section, summed on over the sections, band by band.
ghost use Rattle.std.specs.Prelude.{◌≡◌, ◌-◌, ◌/◌, ◌≤◌, List, Float, length};
ghost use Rattle.std.specs.Simd.{first_chunks};
ghost use Rattle.section_echoes.specs.Echoes.{response_sum};
ghost use Rattle.section_echoes.specs.Steps.{bands, echo_sums};

use crate::SectionPlan;
use aec3_common::entries::change;
use std::array;

// The responses of the blocks from one to below another.
fn section_response(blocks: &[[f32; 65]], from: usize, to: usize) -> [f32; 65]
    requires { to ≤ length blocks.now }
    ensures { (responses : List Float) → blocks.now ≡ first_chunks 65 (length responses / 65) responses → result ≡ bands (response_sum responses from (to - from)) }
{
    let mut sums = [0.0; 65];
    for powers in &blocks[from.min(to)..to] {
        change(&mut sums, 0, 65, |k, sum| sum + powers[k]);
    }
    sums
}

// The echo sums of a channel: (sum of render) times (sum of responses), section by section. A later section's echoes are added to the
// sums before it; to the first nothing is added, since a sum with plus zero has not always the sign of the other number.
pub fn echo_sums(render: &[[f32; 65]; 8], responses: &[f32], plan: &SectionPlan) -> [[f32; 65]; 8]
    ensures { result ≡ echo_sums render.now responses.now plan.now.boundaries plan.now.num_sections (length responses.now / 65) }
{
    let (blocks, _) = responses.as_chunks::<65>();
    let count = blocks.len();
    let mut r = [[0.0; 65]; 8];
    let response = section_response(blocks, plan.boundaries[0], plan.boundaries[1].min(count));
    r[0] = array::from_fn(|k| render[0][k] * response[k]);
    // A section reads two boundaries, its render power and the sums before it, so an index picks them.
    for s in 1..plan.num_sections {
        let response = section_response(
            blocks,
            plan.boundaries[s],
            plan.boundaries[s + 1].min(count),
        );
        let before = r[s - 1];
        r[s] = array::from_fn(|k| render[s][k] * response[k] + before[k]);
    }
    r
}
