// Places in the ring of spectra. The size and the place stand side by side in each function: the public ones are lent two numbers, and hand
// two on to `places`, so that a struct of both would be made for the judging alone.
#![tactic(auto)]

pub mod places;

ghost use Rattle.std.specs.Prelude.{◌≡◌};
ghost use Rattle.aec3_common.specs.Answers.{number_of, numbered};
ghost use Rattle.spectrum_buffer.specs.Ring.{slots_ok, next_refusal, offset_refusal, next_answer, offset_answer};

use aec3_common::Refusal;
use places::{next_place, offset_place};

pub const MAX_SLOTS: usize = 32;

// The place after index; 4 and 9 are turned away.
#[tactic(auto, unfolding(crate::specs::Ring::next_answer))]
pub fn inc_index(size: usize, index: usize) -> Result<usize, Refusal>
    ensures { numbered result ≡ next_answer size index }
{
    judge_place(size, index)?;
    Ok(next_place(size, index))
}

// The place at an offset from index; 4, 9 and 8 are turned away.
pub fn offset_index(size: usize, index: usize, offset: isize) -> Result<usize, Refusal>
    ensures { numbered result ≡ offset_answer size index offset }
{
    judge_offset(size, index, offset)?;
    Ok(offset_place(size, index, offset))
}

// Number 4, of the slots alone.
pub fn slots_ok(size: usize) -> bool
    ensures { result ≡ slots_ok size }
{
    (1 <= size) & (size <= MAX_SLOTS)
}

// The first of 4 and 9.
#[tactic(auto, unfolding(crate::specs::Ring::next_refusal))]
fn judge_place(size: usize, index: usize) -> Result<(), Refusal>
    ensures { number_of result ≡ next_refusal size index }
{
    if !slots_ok(size) {
        return Err(Refusal::BadRing);
    }
    if index >= size {
        return Err(Refusal::BadPlace);
    }
    Ok(())
}

// The first of 4, 9 and 8.
#[tactic(auto, unfolding(crate::specs::Ring::next_refusal, crate::specs::Ring::offset_refusal))]
fn judge_offset(size: usize, index: usize, offset: isize) -> Result<(), Refusal>
    ensures { number_of result ≡ offset_refusal size index offset }
{
    judge_place(size, index)?;
    if offset.unsigned_abs() > size {
        return Err(Refusal::BadOffset);
    }
    Ok(())
}
