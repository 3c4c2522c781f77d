// Text in ASCII, written over a lent slice from a place on: all of it, answering the place behind it, or, where there is
// no room for all, nothing.
ghost use Rattle.std.specs.Prelude.{◌≡◌, ◌+◌, ◌≤◌, ◌<◌, length, drop};
ghost use Rattle.encoding.specs.Text.{written, place_behind, digit, hex8, decimal};

use std::array;

// Writes s. An end that is no usize is past every slice's.
pub fn put_bytes(out: &mut [u8], at: usize, s: &[u8]) -> Option<usize>
    ensures out_after { out.new ≡ written out.old at s.now }
    ensures value { result ≡ place_behind out.old at s.now }
{
    let end = at.saturating_add(s.len());
    if out.len() < end {
        return None;
    }
    out[at..end].copy_from_slice(s);
    Some(end)
}

// The digit that stands for d.
#[tactic(auto, unfolding(crate::specs::Text::digit))]
fn digit_of(d: u32) -> u8
    requires { d < 16 }
    ensures { result ≡ digit d }
{
    match d {
        0..10 => b'0' + d as u8,
        _ => b'A' + (d - 10) as u8,
    }
}

// All eight digits, each of four bits.
pub fn hex_digits(n: u32) -> [u8; 8]
    ensures { result ≡ hex8 n }
{
    array::from_fn(|place| digit_of((n >> (28 - 4 * place)) % 16))
}

const LEAST_OF_TWO_DIGITS: u32 = 10;

// The last digit first, and one more for as long as something is left of the number, which has no more than ten: they stand at the end
// of the table. By places, and not by `iter_mut().rev()`: of what that writes the loop's invariant knows nothing. The table is the caller's,
// since there is no heap.
pub fn decimal_digits(table: &mut [u8; 10], n: u32) -> &[u8]
    ensures { result.now ≡ decimal n }
{
    let mut rest = n;
    for from in (0..10).rev() {
        table[from] = digit_of(rest % 10);
        if rest < LEAST_OF_TWO_DIGITS {
            return &table[from..];
        }
        rest /= 10;
    }
    table
}
