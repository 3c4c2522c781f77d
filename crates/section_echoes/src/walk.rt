// The ring walk: which slot each block of the filter reads.
ghost use Rattle.std.specs.Prelude.{◌≡◌, ◌≤◌, ◌<◌};
ghost use Rattle.section_echoes.specs.Steps.{walked_positions};
ghost use Rattle.aec3_common.specs.Settings.{max_filter_length_blocks};
ghost use Rattle.spectrum_buffer.specs.Ring.{max_slots};

use crate::RenderRing;
use aec3_common::settings::MAX_FILTER_LENGTH_BLOCKS;
use spectrum_buffer::places::{next_place, offset_place};

// Where the slot that each block reads begins in the spectra. The walk begins headroom blocks after the read place; blocks before
// that, which no section has, are given its first slot.
pub fn walked_positions(ring: RenderRing, headroom: usize) -> [usize; MAX_FILTER_LENGTH_BLOCKS]
    requires { (ring.position < ring.slots) × (ring.slots ≤ max_slots) × (ring.channels ≤ 2) × (headroom < max_filter_length_blocks) }
    ensures { result ≡ walked_positions ring headroom }
{
    let slot_length = ring.channels * 65;
    let mut place = offset_place(ring.slots, ring.position, headroom as isize);
    let mut r = [place * slot_length; MAX_FILTER_LENGTH_BLOCKS];
    for position in &mut r[headroom + 1..] {
        place = next_place(ring.slots, place);
        *position = place * slot_length;
    }
    r
}
