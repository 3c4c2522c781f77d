// The update of an estimator that reads the ring: the call's block, the ring, and the responses of the filters. The
// signal-dependent estimator alone is lent two averages besides; the whole estimator makes its own.
ghost use Rattle.std.specs.Prelude.{◌≡◌, [], length, min, OnOk};
ghost use Rattle.script.specs.Lists.{nth_word, past};
ghost use Rattle.update_bodies.specs.Updates.{HeadReads, BodyReads, RingReads};

use crate::block::{BlockLengths, BlockLists};
use aec3_common::Block;
use script::{BlockFloats, Fields, FromFields, Malformed, ReadLists, Spectra, Table};
use section_echoes::{FilterResponses, RenderBuffer, RenderRing};

// A call has a count of response blocks for each of its channels, but a record holds no more than these: one with more
// channels is turned away for them.
const MOST_COUNTS: usize = 16;

// The channels of the call, the ring, and the lengths of the lists that every such update has.
#[derive(Clone, Copy, Debug)]
struct RingHead {
    channels: u32,
    ring: RenderRing,
    lengths: BlockLengths,
    spectra: u32,
}

impl FromFields for RingHead {
    type Error = Malformed;

    ghost reads = { λ bytes head rest. HeadReads bytes head × (rest ≡ past 9 bytes) };

    fn from_fields(fields: &mut Fields) -> Result<RingHead, Malformed> {
        Ok(RingHead {
            channels: fields.word()?,
            ring: RenderRing {
                slots: fields.count()?,
                channels: fields.count()?,
                position: fields.count()?,
            },
            lengths: BlockLengths::from_fields(fields)?,
            spectra: fields.word()?,
        })
    }
}

// The lists that every such update has behind its head.
#[derive(Debug, Drop)]
struct RingBody {
    response_blocks: Table<usize, MOST_COUNTS>,
    block: BlockLists,
    spectra: BlockFloats,
}

impl RingBody {
    fn none() -> RingBody {
        RingBody {
            response_blocks: Table::filled_with(0),
            block: BlockLists::none(),
            spectra: Table::filled_with(0.0),
        }
    }

    fn read(&mut self, fields: &mut Fields, head: RingHead) -> Result<(), Malformed>
        ensures { OnOk result (BodyReads head self.new) }
    {
        let counts = head.channels.min(MOST_COUNTS as u32);
        fields.counts(counts, &mut self.response_blocks)?;
        self.block
            .read(fields, head.channels as usize, head.lengths)?;
        fields.floats(head.spectra, &mut self.spectra)
    }
}

// The update of the whole estimator.
#[derive(Debug, Drop)]
pub struct RingLists {
    ring: RenderRing,
    body: RingBody,
    responses: BlockFloats,
}

impl RingLists {
    pub fn block(&self) -> Block<'_>
        ensures channels { result.num_capture_channels ≡ self.now.body.block.num_capture_channels }
        ensures converged_filters { result.converged_filters.now ≡ self.now.body.block.converged_filters }
        ensures x2 { result.x2.now ≡ self.now.body.block.x2 }
        ensures y2 { result.y2.now ≡ self.now.body.block.y2 }
        ensures e2 { result.e2.now ≡ self.now.body.block.e2 }
    {
        self.body.block.block()
    }

    pub fn render(&self) -> RenderBuffer<'_>
        ensures ring { result.ring ≡ self.now.ring }
        ensures spectra { result.spectra.now ≡ self.now.body.spectra }
    {
        RenderBuffer {
            ring: self.ring,
            spectra: self.body.spectra.as_slice(),
        }
    }

    pub fn responses(&self) -> FilterResponses<'_>
        ensures blocks { result.blocks.now ≡ self.now.body.response_blocks }
        ensures responses { result.responses.now ≡ self.now.responses }
    {
        FilterResponses {
            blocks: self.body.response_blocks.as_slice(),
            responses: self.responses.as_slice(),
        }
    }
}

// The responses take what the other lists leave.
impl ReadLists for RingLists {
    ghost reads = { λ bytes lists rest. RingReads bytes lists × (rest ≡ []) };

    fn none() -> RingLists {
        RingLists {
            ring: RenderRing {
                slots: 0,
                channels: 0,
                position: 0,
            },
            body: RingBody::none(),
            responses: Table::filled_with(0.0),
        }
    }

    fn read_fields(&mut self, fields: &mut Fields) -> Result<(), Malformed> {
        let head = RingHead::from_fields(fields)?;
        self.ring = head.ring;
        self.body.read(fields, head)?;
        fields.floats_left(&mut self.responses)
    }
}

// The update of the signal-dependent estimator alone.
#[derive(Debug, Drop)]
pub struct AveragedLists {
    pub lists: RingLists,
    average: Spectra,
    average_compensated: Spectra,
}

impl AveragedLists {
    pub fn average(&self) -> &[f32]
        ensures { result.now ≡ self.now.average }
    {
        self.average.as_slice()
    }

    pub fn average_compensated(&self) -> &[f32]
        ensures { result.now ≡ self.now.average_compensated }
    {
        self.average_compensated.as_slice()
    }
}

// The lengths of the averages stand behind the head, and the averages before the responses.
impl ReadLists for AveragedLists {
    ghost reads = { λ bytes averaged rest. RingReads bytes averaged.lists × (length averaged.average ≡ min (nth_word 9 bytes) 261) × (length averaged.average_compensated ≡ min (nth_word 10 bytes) 261) × (rest ≡ []) };

    fn none() -> AveragedLists {
        AveragedLists {
            lists: RingLists::none(),
            average: Table::filled_with(0.0),
            average_compensated: Table::filled_with(0.0),
        }
    }

    fn read_fields(&mut self, fields: &mut Fields) -> Result<(), Malformed> {
        let head = RingHead::from_fields(fields)?;
        let plain = fields.word()?;
        let compensated = fields.word()?;
        self.lists.ring = head.ring;
        self.lists.body.read(fields, head)?;
        fields.floats(plain, &mut self.average)?;
        fields.floats(compensated, &mut self.average_compensated)?;
        fields.floats_left(&mut self.lists.responses)
    }
}

#[cfg(test)]
mod tests {
    use super::*;
    use std::test::Fail;

    // A channel, a ring of two slots of one channel each, no flags and no block; one number of the spectra, a count of response
    // blocks, and one number of the responses.
    #[test]
    fn reads_an_update_with_the_ring(rt: HostRuntime) -> Result<(), Fail> {
        let bytes = [
            1, 0, 0, 0, 2, 0, 0, 0, 1, 0, 0, 0, 1, 0, 0, 0, 0, 0, 0, 0, 0, 0, 0, 0, 0, 0, 0, 0, 0,
            0, 0, 0, 1, 0, 0, 0, 3, 0, 0, 0, 0, 0, 0x80, 0x3f, 0, 0, 0, 0xc0,
        ];
        let mut lists = RingLists::none();
        lists.read_fields(&mut Fields::new(&bytes))?;
        let render = lists.render();
        assert_eq!(rt;
            (
                render.ring.slots,
                render.ring.channels,
                render.ring.position
            ),
            (2, 1, 1)
        );
        assert_eq!(rt; render.spectra, [1.0].as_slice());
        assert_eq!(rt; lists.responses().blocks, [3].as_slice());
        assert_eq!(rt; lists.responses().responses, [-2.0].as_slice());
        assert_eq!(rt; lists.block().num_capture_channels, 1);
        Ok(())
    }

    // The same without spectra, and with one number of each average.
    #[test]
    fn reads_an_update_with_averages(rt: HostRuntime) -> Result<(), Fail> {
        let bytes = [
            1, 0, 0, 0, 2, 0, 0, 0, 1, 0, 0, 0, 1, 0, 0, 0, 0, 0, 0, 0, 0, 0, 0, 0, 0, 0, 0, 0, 0,
            0, 0, 0, 0, 0, 0, 0, 1, 0, 0, 0, 1, 0, 0, 0, 3, 0, 0, 0, 0, 0, 0x80, 0x3f, 0, 0, 0,
            0x40, 0, 0, 0, 0xc0,
        ];
        let mut averaged = AveragedLists::none();
        averaged.read_fields(&mut Fields::new(&bytes))?;
        assert_eq!(rt; averaged.average(), [1.0].as_slice());
        assert_eq!(rt; averaged.average_compensated(), [2.0].as_slice());
        assert_eq!(rt; averaged.lists.responses().responses, [-2.0].as_slice());
        Ok(())
    }
}
