// Kinds 0101 to 0103: log2, ring places, section boundaries. Nothing stands from one record to the next.
#![tactic(auto)]

ghost use Rattle.std.specs.Prelude.{◌≡◌, length, IsOk};
ghost use Rattle.replay_leaves.specs.Leaves.{IsLeaf};

use aec3_common::{FilterLayout, Refusal, fast_approx_log2f};
use filter_sections::section_boundaries;
use script::{Bits, Fields, FromFields, Malformed, OrRefused, Record, Row};
use spectrum_buffer::{inc_index, offset_index};
use std::fmt;

// What a call answered, or why it was turned away. There is one more boundary than there are sections.
#[derive(Clone, Copy, Debug)]
pub enum LeafLine {
    Log2(Result<f32, Refusal>),
    Ring {
        next: Result<usize, Refusal>,
        at_offset: Result<usize, Refusal>,
    },
    Sections {
        num_sections: usize,
        boundaries: Result<[usize; 9], Refusal>,
    },
}

impl fmt::Display for LeafLine {
    fn fmt<W: fmt::Write>(&self, f: &mut fmt::Formatter<W>) -> fmt::Result {
        match self {
            LeafLine::Log2(answer) => writeln!(f, "log2 {}", OrRefused(answer.map(Bits))),
            LeafLine::Ring { next, at_offset } => {
                let next = OrRefused(*next);
                let at_offset = OrRefused(*at_offset);
                writeln!(f, "ring next {next} offset {at_offset}")
            }
            LeafLine::Sections {
                num_sections,
                boundaries: Ok(boundaries),
            } => {
                let shown = boundaries.len().min(num_sections.saturating_add(1));
                writeln!(f, "sections{}", Row(&boundaries[..shown]))
            }
            LeafLine::Sections {
                boundaries: Err(refusal),
                ..
            } => writeln!(f, "sections refused {refusal}"),
        }
    }
}

// 0101: x.
fn log2_line(mut fields: Fields) -> Result<LeafLine, Malformed>
    ensures { IsOk result → length fields.entry.rest.now ≡ 4 }
{
    let x = fields.float()?;
    fields.end()?;
    Ok(LeafLine::Log2(fast_approx_log2f(x)))
}

// 0102: slots, place, offset.
fn ring_line(mut fields: Fields) -> Result<LeafLine, Malformed>
    ensures { IsOk result → length fields.entry.rest.now ≡ 12 }
{
    let slots = fields.count()?;
    let place = fields.count()?;
    let offset = fields.word()?.cast_signed() as isize;
    fields.end()?;
    Ok(LeafLine::Ring {
        next: inc_index(slots, place),
        at_offset: offset_index(slots, place, offset),
    })
}

// 0103: sections, filter length in blocks, headroom in samples.
fn sections_line(mut fields: Fields) -> Result<LeafLine, Malformed>
    ensures { IsOk result → length fields.entry.rest.now ≡ 12 }
{
    let layout = FilterLayout::from_fields(&mut fields)?;
    fields.end()?;
    Ok(LeafLine::Sections {
        num_sections: layout.num_sections,
        boundaries: section_boundaries(layout),
    })
}

// Replays a record. Each kind is asked for at this one place, so the numbers have no other names.
pub fn replay_leaf(record: Record) -> Result<LeafLine, Malformed>
    ensures { IsOk result → IsLeaf record.entry.kind (length record.entry.fields.rest.now) }
{
    match record.kind {
        0x0101 => log2_line(record.fields),
        0x0102 => ring_line(record.fields),
        0x0103 => sections_line(record.fields),
        _ => Err(Malformed),
    }
}

#[cfg(test)]
mod tests {
    use super::*;
    use std::test::Fail;

    // The logarithm is an approximation, which makes 127 - 126.942695 of 1.
    #[test]
    fn shows_what_a_leaf_answers(rt: HostRuntime) -> Result<(), Fail> {
        let cases = [
            ([0x01, 0x01, 0, 0, 0x80, 0x3f].as_slice(), "log2 3D6AB800\n"),
            (
                [0x02, 0x01, 4, 0, 0, 0, 1, 0, 0, 0, 3, 0, 0, 0].as_slice(),
                "ring next 2 offset 0\n",
            ),
            (
                [0x03, 0x01, 1, 0, 0, 0, 2, 0, 0, 0, 0, 0, 0, 0].as_slice(),
                "sections 0 2\n",
            ),
        ];
        for (bytes, want) in cases {
            let mut text = String::new(rt.alloc());
            let line = replay_leaf(Record::new(bytes)?)?;
            write!(text, "{line}")?;
            assert_eq!(rt; text.as_str(), want);
        }
        Ok(())
    }
}
