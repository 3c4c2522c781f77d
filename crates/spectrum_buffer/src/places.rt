// Places in a ring, for callers that have judged their call: nothing is turned away here.
ghost use Rattle.std.specs.Prelude.{◌≡◌, ◌<◌, ◌^◌, nat_abs};
ghost use Rattle.spectrum_buffer.specs.Ring.{next_place, offset_place};

// The place after index.
#[tactic(auto, unfolding(crate::specs::Ring::next_place))]
pub fn next_place(size: usize, index: usize) -> usize
    ensures { result ≡ next_place size index }
{
    match index.checked_add(1) {
        Some(next) if next < size => next,
        _ => 0,
    }
}

// The place at an offset from index. The bounds are those within which no sum here wraps. `rem_euclid` would give the place at once, but a
// remainder that takes the sign of the sum is a form that the project asks for here.
#[tactic(auto, unfolding(crate::specs::Ring::offset_place))]
pub fn offset_place(size: usize, index: usize, offset: isize) -> usize
    requires index_lt_size { (index < size) × (size < 2 ^ 62) }
    requires offset_bound { nat_abs offset < 2 ^ 62 }
    ensures { result ≡ offset_place size index offset }
{
    let size = size as isize;
    let remainder = (index as isize + offset) % size;
    if remainder < 0 {
        (remainder + size) as usize
    } else {
        remainder as usize
    }
}
