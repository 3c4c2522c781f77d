// The record that a slice of bytes begins with.
ghost use Rattle.std.specs.Prelude.{◌≡◌, ◌≤◌, true, false, IfSome, MatchOption};
ghost use Rattle.trace_records.specs.Frames.{frame_length, framed, record_in, length_of};

use encoding::word_at;

// The bytes of L, which it does not count.
pub const LENGTH_SIZE: usize = 4;

// The kind's two bytes.
pub const LEAST_LENGTH: usize = 2;

pub const GREATEST_LENGTH: usize = 65532;

// The L that the first four bytes say, where they are there and say one that a record can have.
#[tactic(auto, unfolding(crate::specs::Frames::length_of))]
pub fn length_of(s: &[u8]) -> Option<usize>
    ensures value { result ≡ length_of s.now }
    ensures upper_bound { IfSome result (λ length. length ≤ 65532) }
{
    let length = word_at(s, 0) as usize;
    if s.len() < LENGTH_SIZE || !(LEAST_LENGTH..=GREATEST_LENGTH).contains(&length) {
        None
    } else {
        Some(length)
    }
}

// The L of a record that is there whole.
#[tactic(auto, unfolding(crate::specs::Frames::frame_length))]
pub fn frame_length(s: &[u8]) -> Option<usize>
    ensures value { result ≡ frame_length s.now }
{
    let length = length_of(s)?;
    if s.len() < LENGTH_SIZE + length {
        None
    } else {
        Some(length)
    }
}

// The whole record that bytes begin with, where they begin with one: what follows its L.
pub fn frame(s: &[u8]) -> Option<&[u8]>
    ensures { MatchOption result (framed s.now ≡ false) (λ bytes. (framed s.now ≡ true) × (bytes.now ≡ record_in s.now)) }
{
    let length = frame_length(s)?;
    let end = LENGTH_SIZE + length;
    Some(&s[LENGTH_SIZE..end])
}
