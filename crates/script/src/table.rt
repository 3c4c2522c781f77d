// The lists of a record. A list that is longer than any call can ask for is turned away for its length, before its values are looked at.
// So each lies in a table with room for one more than that, and needs no heap: of a longer list stands only what the table takes, which
// is still too long.
ghost use Rattle.std.specs.Prelude.{◌≡◌, ℕ, ◌<◌, ◌≤◌, List, [], length, min};
ghost use Rattle.aec3_common.specs.Lists.{tab};
ghost use Rattle.script.specs.Lists.{Computes};

use aec3_common::entries::change;
use std::marker::Model;

// A flag for each of 4 channels, and one more.
pub const MOST_FLAGS: usize = 5;

// 65 bands for each of 4 channels, and one more.
pub const MOST_FLOATS: usize = 261;

// 65 bands for each of 64 blocks, and one more. So many are a ring of 32 slots with 2 channels, and the responses of 4 channels with 16
// blocks.
pub const MOST_BLOCK_FLOATS: usize = 4161;

pub type Flags = Table<bool, MOST_FLAGS>;

pub type Spectra = Table<f32, MOST_FLOATS>;

pub type BlockFloats = Table<f32, MOST_BLOCK_FLOATS>;

// So many elements of a table of N.
#[derive(Debug, Drop)]
pub struct Table<T, const N: usize> {
    elements: [T; N],
    used: usize,
}

// A clause sees the list.
impl<T, const N: usize> Model for Table<T, N> {
    ghost use Rattle.std.specs.Prelude.{◌≡◌, ◌≤◌, List, length, take};

    ghost Value = { List T };

    ghost view = { λ t. take t.used t.elements };

    ghost invariant = { λ t. (t.used ≤ N) × (length t.elements ≡ N) };
}

impl<T: Copy, const N: usize> Table<T, N> {
    // No elements; the table holds so many copies of one, of which nothing is shown.
    pub fn filled_with(element: T) -> Table<T, N>
        ensures { result ≡ [] }
    {
        Table {
            elements: [element; N],
            used: 0,
        }
    }

    pub fn as_slice(&self) -> &[T]
        ensures value { result.now ≡ self.now }
        ensures fits { length self.now ≤ N }
    {
        &self.elements[..self.used]
    }

    // The elements that a function makes of their places: so many, or of more the first N.
    pub(crate) fn fill<F: Fn(usize) -> T>(&mut self, count: usize, element: F)
        requires { (k : ℕ) → k < count → F.pre element k }
        ensures length { length self.new ≡ min count N }
        ensures values { (value : ℕ → T) → Computes (F.post element) value → self.new ≡ tab (min count N) value }
    {
        let used = count.min(N);
        let by = |k: usize, _: T| -> T
            requires { F.pre element k }
            ensures { F.post element k result }
        { element(k) };
        change(&mut self.elements, 0, used, by);
        self.used = used;
    }
}
