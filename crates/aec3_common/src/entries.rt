// Tables changed entry by entry. Every rule of one band is applied to many by this.
ghost use Rattle.std.specs.Prelude.{ℕ, ◌≤◌, ◌<◌, length, get_or};
ghost use Rattle.aec3_common.specs.Steps.{Changed};

// Each entry of a table, from one on and below another, as a function makes it of its index and of what it was.
pub fn change<T: Copy, F: Fn(usize, T) -> T>(table: &mut [T], from: usize, to: usize, f: F)
    requires ordered { from ≤ to }
    requires within { to ≤ length table.old }
    requires callable { (k : ℕ) (d : T) → from ≤ k → k < to → F.pre f k (get_or table.old k d) }
    ensures { Changed (F.post f) from to table.old table.new }
{
    for k in from..to {
        table[k] = f(k, table[k]);
    }
}
