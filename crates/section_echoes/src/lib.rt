// The echo of each section of the adaptive filter, and the section that is active in each band.
#![tactic(auto)]

mod active;
mod channels;
mod echoes;
mod renders;
mod walk;

ghost use Rattle.std.specs.Prelude.{◌≤◌, ◌<◌};
ghost use Rattle.aec3_common.specs.Settings.{max_filter_length_blocks};

pub use channels::all_active_sections;

// How the ring of render spectra is lent: so many slots of so many channels, 65 numbers each, slot by slot and channel by channel;
// position is the read place, one of the slots.
#[derive(Clone, Copy, Debug)]
pub struct RenderRing {
    pub slots: usize,
    pub channels: usize,
    pub position: usize,
}

// A ring with its spectra, as a caller lends it. It is lent before it is judged, so that no field here can say that it fits: who walks it asks.
#[derive(Clone, Copy, Debug)]
pub struct RenderBuffer<'a> {
    pub ring: RenderRing,
    pub spectra: &'a [f32],
}

// The responses of the adaptive filter: how many blocks each capture channel has, and the responses of all, channel by channel and
// block by block, 65 numbers each. A call lends both lists, and is turned away by 5 where they do not fit each other.
#[derive(Clone, Copy, Debug)]
pub struct FilterResponses<'a> {
    pub blocks: &'a [usize],
    pub responses: &'a [f32],
}

// Where the sections of a filter begin and end: the blocks of headroom before the first, their boundaries, and how many there are.
#[derive(Clone, Copy, Debug)]
pub struct SectionPlan {
    pub headroom: usize,
    pub boundaries: [usize; 9],
    pub num_sections: usize,
    ghost headroom_inside: { headroom < max_filter_length_blocks },
    ghost some_sections: { 1 ≤ num_sections },
    ghost few_sections: { num_sections ≤ 8 },
}
