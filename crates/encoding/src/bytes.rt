// Numbers in a slice of bytes, little-endian. A byte past the end counts as 0, so that a reader may look anywhere.
ghost use Rattle.std.specs.Prelude.{◌≡◌, ◌<◌};
ghost use Rattle.std.specs.Float.{binary32};
ghost use Rattle.std.specs.Float.Ieee.{of_bits, to_bits};
ghost use Rattle.encoding.specs.Bytes.{byte_at, half_at, word_at};

// The 31 bits below the sign, of plus infinity: a pattern whose lower bits are above them is a NaN's.
const INFINITY_BITS: u32 = 0x7f80_0000;

// The bits of the one NaN.
const NAN_BITS: u32 = 0x7fc0_0000;

// The byte at i.
pub fn byte_at(s: &[u8], i: usize) -> u32
    ensures value { result ≡ byte_at s.now i }
    ensures upper_bound { result < 256 }
{
    s.get(i).map_or(0, |&byte| u32::from(byte))
}

// The number of 16 bits whose bytes stand at i and i + 1. At the greatest place, which is past every end, i + 1 would be no usize.
pub fn half_at(s: &[u8], i: usize) -> u32
    ensures value { result ≡ half_at s.now i }
    ensures upper_bound { result < 65536 }
{
    byte_at(s, i) + 256 * byte_at(s, i.saturating_add(1))
}

// The number of 32 bits whose bytes stand at i to i + 3.
pub fn word_at(s: &[u8], i: usize) -> u32
    ensures { result ≡ word_at s.now i }
{
    let low = half_at(s, i);
    let high = half_at(s, i.saturating_add(2));
    low + 65536 * high
}

// The binary32 number with these bits; each NaN's pattern gives the one NaN.
pub fn float_of(bits: u32) -> f32
    ensures { result ≡ of_bits binary32 bits }
{
    if bits % 0x8000_0000 <= INFINITY_BITS {
        f32::from_bits(bits)
    } else {
        f32::NAN
    }
}

// The bits of a binary32 number; of a NaN always 7FC00000.
pub fn bits_of(x: f32) -> u32
    ensures { result ≡ to_bits binary32 x }
{
    if x.is_nan() { NAN_BITS } else { x.to_bits() }
}
