// The ring and the responses that all blocks of a run share.
ghost use Rattle.std.specs.Prelude.{◌≡◌, ◌≤◌, ◌*◌, ◌%◌, ◌↔◌, length, take, replicate, IsSome, IfSome};
ghost use Rattle.speed.specs.Room.{Shared};

use section_echoes::{FilterResponses, RenderBuffer, RenderRing};

// The ring has so many slots of one render channel.
const RING_SLOTS: usize = 20;

// The filter of each channel has so many blocks.
pub const FILTER_LENGTH_BLOCKS: usize = 13;

const RESPONSE_BLOCKS: [usize; 4] = [FILTER_LENGTH_BLOCKS; 4];

#[derive(Clone, Copy, Debug)]
pub struct SharedLists<'a> {
    spectra: &'a [f32],
    pub responses: FilterResponses<'a>,
}

impl<'a> SharedLists<'a> {
    // The front of what is lent; none where it is too short for so many channels.
    pub fn new(channels: usize, ring: &'a [f32], responses: &'a [f32]) -> Option<SharedLists<'a>>
        ensures room { IsSome result ↔ ((channels ≤ 4) × Shared channels (length ring.now) (length responses.now)) }
        ensures ring { IfSome result (λ shared. shared.spectra.now ≡ take 1300 ring.now) }
        ensures responses { IfSome result (λ shared. shared.responses.responses.now ≡ take (channels * 845) responses.now) }
        ensures blocks { IfSome result (λ shared. shared.responses.blocks.now ≡ replicate channels 13) }
    {
        Some(SharedLists {
            spectra: ring.get(..RING_SLOTS * 65)?,
            responses: FilterResponses {
                blocks: RESPONSE_BLOCKS.get(..channels)?,
                responses: responses.get(..channels.checked_mul(FILTER_LENGTH_BLOCKS * 65)?)?,
            },
        })
    }

    // The ring as a block reads it: one place further with each block.
    pub fn buffer(&self, block: usize) -> RenderBuffer<'a>
        ensures ring { result.ring ≡ record { slots = 20; channels = 1; position = block % 20 } }
        ensures spectra { result.spectra ≡ self.now.spectra }
    {
        RenderBuffer {
            ring: RenderRing {
                slots: RING_SLOTS,
                channels: 1,
                position: block % RING_SLOTS,
            },
            spectra: self.spectra,
        }
    }
}
