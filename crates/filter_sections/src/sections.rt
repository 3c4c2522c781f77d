// The sections of the adaptive filter: their sizes and boundaries in blocks.
ghost use Rattle.std.specs.Prelude.{◌≡◌, ℕ, ◌≤◌, ◌<◌, ◌^◌, length, get_or};
ghost use Rattle.aec3_common.specs.Answers.{numbered};
ghost use Rattle.filter_sections.specs.Sections.{takes, section_sizes, running_sums, boundaries, padded, sections_answer};
ghost use Rattle.filter_sections.specs.Steps.{Doubled as Steps-as-Doubled};

use aec3_common::entries::change;
use aec3_common::settings::headroom_blocks;
use aec3_common::{FilterLayout, Refusal};

// So many blocks to be divided into so many sections, as judged settings have them: sums stay small within these bounds.
#[derive(Clone, Copy, Debug)]
struct Division {
    sections: usize,
    blocks: usize,
    ghost some: { 0 < sections },
    ghost few: { sections ≤ 8 },
    ghost short: { blocks < 2 ^ 32 },
}

// The sizes so far, how many there are, and the blocks left for the sections left to share evenly. The table has a fixed size, as all memory
// of the estimators has, so the count stands beside it.
#[derive(Clone, Copy, Debug)]
struct Doubled {
    sizes: [usize; 8],
    taken: usize,
    left: usize,
}

// The boundaries of up to eight sections, with zeros behind them; number 3 is turned away.
pub fn section_boundaries(layout: FilterLayout) -> Result<[usize; 9], Refusal>
    ensures { numbered result ≡ sections_answer layout.num_sections layout.filter_length_blocks layout.delay_headroom_samples }
{
    if !layout.ok() {
        return Err(Refusal::BadSections);
    }
    let filter = Division {
        sections: layout.num_sections,
        blocks: layout.filter_length_blocks,
    };
    Ok(filter.boundaries(headroom_blocks(layout.delay_headroom_samples)))
}

// from, and after it the running sums of the sizes.
fn running_sums(from: usize, sizes: &[usize]) -> [usize; 9]
    requires small { from < 2 ^ 32 }
    requires few { length sizes.now ≤ 8 }
    requires by_index { (k : ℕ) → get_or sizes.now k 0 < 2 ^ 32 }
    ensures { result ≡ padded 9 (running_sums from sizes.now) }
{
    let mut r = [from, 0, 0, 0, 0, 0, 0, 0, 0];
    // Each sum is made of the one before it in the same table: a chain over the sizes would need that one beside it, and be no plainer.
    for (k, &size) in sizes.iter().enumerate() {
        r[k + 1] = r[k] + size;
    }
    r
}

// Whether a section takes size blocks, of the sections and blocks left.
fn section_takes(size: usize, sections: usize, blocks: usize) -> bool
    requires { (size < 2 ^ 34) × (sections ≤ 8) }
    ensures { result ≡ takes size sections blocks }
{
    (1 < sections) & (size * sections < blocks)
}

impl Division {
    // One section has them all. More begin behind the headroom.
    fn boundaries(self, headroom: usize) -> [usize; 9]
        requires { headroom < 2 ^ 32 }
        ensures { result ≡ padded 9 (boundaries self.sections self.blocks headroom) }
    {
        if self.sections == 1 {
            return [0, self.blocks, 0, 0, 0, 0, 0, 0, 0];
        }
        let behind = Division {
            sections: self.sections,
            blocks: self.blocks.saturating_sub(headroom),
        };
        running_sums(headroom, &behind.sizes()[..self.sections])
    }

    // The sizes of the sections, zeros behind them.
    fn sizes(self) -> [usize; 8]
        ensures { result ≡ padded 8 (section_sizes self.sections self.blocks) }
    {
        self.share_evenly(self.double_sizes())
    }

    // Sections that take sizes doubling from 2; the last one takes what is left.
    fn double_sizes(self) -> Doubled
        ensures { Steps-as-Doubled self.sections self.blocks 8 result.sizes result.taken result.left }
    {
        let mut sizes = [0usize; 8];
        let mut left = self.blocks;
        let mut size = 2;
        for taken in 0..self.sections - 1 {
            if !section_takes(size, self.sections - taken, left) {
                return Doubled { sizes, taken, left };
            }
            sizes[taken] = size;
            left -= size;
            size *= 2;
        }
        let taken = self.sections - 1;
        Doubled { sizes, taken, left }
    }

    // The sections left share the blocks left; the last takes the remainder too.
    fn share_evenly(self, doubled: Doubled) -> [usize; 8]
        requires { Steps-as-Doubled self.sections self.blocks 8 doubled.sizes doubled.taken doubled.left }
        ensures { result ≡ padded 8 (section_sizes self.sections self.blocks) }
    {
        let Doubled {
            mut sizes,
            taken,
            left,
        } = doubled;
        let share = left / (self.sections - taken);
        let remainder = left % (self.sections - taken);
        change(&mut sizes, taken, self.sections, |k, _| {
            if k + 1 == self.sections {
                share + remainder
            } else {
                share
            }
        });
        sizes
    }
}
