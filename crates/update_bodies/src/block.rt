// A block of an estimator's input, as a record holds it.
ghost use Rattle.std.specs.Prelude.{◌≡◌, OnOk};
ghost use Rattle.script.specs.Lists.{nth_word, past};
ghost use Rattle.update_bodies.specs.Updates.{LengthsRead, HaveLengths, ListsRead};

use aec3_common::Block;
use script::{Fields, Flags, FromFields, Malformed, ReadLists, Spectra, Table};

// How many flags, and render, capture and residual numbers. Who wants lists that are longer than the tables of `BlockLists` reads them by these.
#[derive(Clone, Copy, Debug)]
pub struct BlockLengths {
    pub flags: u32,
    pub x2: u32,
    pub y2: u32,
    pub e2: u32,
}

impl FromFields for BlockLengths {
    type Error = Malformed;

    ghost reads = { λ bytes lengths rest. LengthsRead 0 bytes lengths × (rest ≡ past 4 bytes) };

    fn from_fields(fields: &mut Fields) -> Result<BlockLengths, Malformed> {
        Ok(BlockLengths {
            flags: fields.word()?,
            x2: fields.word()?,
            y2: fields.word()?,
            e2: fields.word()?,
        })
    }
}

// How many channels the call says that it has, and its lists.
#[derive(Debug, Drop)]
pub struct BlockLists {
    num_capture_channels: usize,
    converged_filters: Flags,
    x2: Spectra,
    y2: Spectra,
    e2: Spectra,
}

impl BlockLists {
    // The lists of these lengths, one behind the other.
    pub fn read(
        &mut self,
        fields: &mut Fields,
        num_capture_channels: usize,
        lengths: BlockLengths,
    ) -> Result<(), Malformed>
        ensures channels { OnOk result (self.new.num_capture_channels ≡ num_capture_channels) }
        ensures lengths { OnOk result (HaveLengths lengths self.new) }
    {
        self.num_capture_channels = num_capture_channels;
        fields.flags(lengths.flags, &mut self.converged_filters)?;
        fields.floats(lengths.x2, &mut self.x2)?;
        fields.floats(lengths.y2, &mut self.y2)?;
        fields.floats(lengths.e2, &mut self.e2)?;
        Ok(())
    }

    pub fn block(&self) -> Block<'_>
        ensures channels { result.num_capture_channels ≡ self.now.num_capture_channels }
        ensures converged_filters { result.converged_filters.now ≡ self.now.converged_filters }
        ensures x2 { result.x2.now ≡ self.now.x2 }
        ensures y2 { result.y2.now ≡ self.now.y2 }
        ensures e2 { result.e2.now ≡ self.now.e2 }
    {
        Block {
            num_capture_channels: self.num_capture_channels,
            converged_filters: self.converged_filters.as_slice(),
            x2: self.x2.as_slice(),
            y2: self.y2.as_slice(),
            e2: self.e2.as_slice(),
        }
    }
}

// The update of a part of the ERLE estimator, alone: its channels, its lengths, its lists.
impl ReadLists for BlockLists {
    ghost reads = { λ bytes lists _. (lists.num_capture_channels ≡ nth_word 0 bytes) × ListsRead 1 bytes lists };

    fn none() -> BlockLists {
        BlockLists {
            num_capture_channels: 0,
            converged_filters: Table::filled_with(false),
            x2: Table::filled_with(0.0),
            y2: Table::filled_with(0.0),
            e2: Table::filled_with(0.0),
        }
    }

    fn read_fields(&mut self, fields: &mut Fields) -> Result<(), Malformed> {
        let num_capture_channels = fields.count()?;
        let lengths = BlockLengths::from_fields(fields)?;
        self.read(fields, num_capture_channels, lengths)
    }
}

#[cfg(test)]
mod tests {
    use super::*;
    use std::test::Fail;

    #[test]
    fn reads_the_update_of_a_part(rt: HostRuntime) -> Result<(), Fail> {
        let bytes = [
            1, 0, 0, 0, 1, 0, 0, 0, 1, 0, 0, 0, 1, 0, 0, 0, 1, 0, 0, 0, 1, 0, 0, 0x80, 0x3f, 0, 0,
            0, 0x40, 0, 0, 0, 0xc0,
        ];
        let mut fields = Fields::new(&bytes);
        let mut lists = BlockLists::none();
        lists.read_fields(&mut fields)?;
        assert_eq!(rt; fields.end(), Ok(()));
        let block = lists.block();
        assert_eq!(rt; block.num_capture_channels, 1);
        assert_eq!(rt; block.converged_filters, [true].as_slice());
        assert_eq!(rt; block.x2, [1.0].as_slice());
        assert_eq!(rt; block.y2, [2.0].as_slice());
        assert_eq!(rt; block.e2, [-2.0].as_slice());
        Ok(())
    }

    // No flag, 262 render numbers, and no others: one render number more than a table of the lists takes.
    #[test]
    fn reads_a_list_longer_than_its_table(rt: HostRuntime) -> Result<(), Fail> {
        let mut bytes = [0, 0, 0, 0, 6, 1, 0, 0, 0, 0, 0, 0, 0, 0, 0, 0].to_vec(rt.alloc())?;
        bytes.resize(1064, 0)?;
        let mut fields = Fields::new(&bytes);
        let lengths = BlockLengths::from_fields(&mut fields)?;
        let mut x2: Table<f32, 262> = Table::filled_with(1.0);
        fields.floats(lengths.x2, &mut x2)?;
        assert_eq!(rt; fields.end(), Ok(()));
        assert_eq!(rt; x2.as_slice().len(), 262);
        Ok(())
    }
}
