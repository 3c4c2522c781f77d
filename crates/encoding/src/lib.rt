// How numbers are read from bytes, and how text is written over a lent slice. No public function asks anything of its
// caller.
#![tactic(auto)]

pub mod bytes;
pub mod text;

pub use bytes::{bits_of, byte_at, float_of, half_at, word_at};
pub use text::{decimal_digits, hex_digits, put_bytes};
