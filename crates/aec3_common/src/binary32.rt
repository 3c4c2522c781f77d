// binary32 helpers, each operation rounded once.
ghost use Rattle.std.specs.Prelude.{◌≡◌, ◌≤◌, length, take};
ghost use Rattle.aec3_common.specs.Binary32.{clamped, within, values_ok, sums_ok};
ghost use Rattle.aec3_common.specs.Binary32.{larger as Binary32·larger, smaller as Binary32·smaller, moved as Binary32·moved};
ghost use Rattle.std.specs.List.{list_all};

use std::simd::prelude::*;

// 2^100, the greatest spectrum or response value, and 2^110, the greatest held sum.
pub const GREATEST_VALUE: f32 = 1267650600228229401496703205376.0;

pub const GREATEST_SUM: f32 = 1298074214633706907132624082305024.0;

// x within lo and hi: a NaN stays. std's f32::clamp asks that lo is not above hi, and a state may hold limits out of order.
#[tactic(auto, unfolding(crate::specs::Binary32::clamped))]
pub fn clamp(x: f32, lo: f32, hi: f32) -> f32
    ensures { result ≡ clamped x lo hi }
{
    if x < lo {
        lo
    } else if x > hi {
        hi
    } else {
        x
    }
}

// The larger of two; the first unless the second is above it. std's max and min leave open which of two zeros they give, and of a NaN they
// give the other.
#[tactic(auto, unfolding(crate::specs::Binary32::larger))]
pub fn larger(a: f32, b: f32) -> f32
    ensures { result ≡ Binary32·larger a b }
{
    if a < b { b } else { a }
}

// The smaller of two; the first unless the second is below it.
#[tactic(auto, unfolding(crate::specs::Binary32::smaller))]
pub fn smaller(a: f32, b: f32) -> f32
    ensures { result ≡ Binary32·smaller a b }
{
    if b < a { b } else { a }
}

// old, moved towards new by a share of the difference.
#[tactic(auto, unfolding(crate::specs::Binary32::moved))]
pub fn moved(old: f32, new: f32, share: f32) -> f32
    ensures { result ≡ Binary32·moved old new share }
{
    old + share * (new - old)
}

// Whether x lies in 0 to hi.
pub fn is_within(x: f32, hi: f32) -> bool
    ensures { result ≡ within hi x }
{
    (0.0 <= x) & (x <= hi)
}

// Number 6.
pub fn values_ok(xs: &[f32]) -> bool
    ensures { result ≡ values_ok xs.now }
{
    all_within(xs, GREATEST_VALUE)
}

// Whether every value can be a held sum.
pub fn sums_ok(xs: &[f32]) -> bool
    ensures { result ≡ sums_ok xs.now }
{
    all_within(xs, GREATEST_SUM)
}

// Whether every value lies in 0 to hi: four at a time, with no early way out while there are four, and then the rest.
fn all_within(xs: &[f32], hi: f32) -> bool
    ensures { result ≡ list_all (within hi) xs.now }
{
    let (fours, rest) = xs.as_chunks::<4>();
    let mut ok = true;
    for four in fours {
        ok = ok & four_within(four, hi);
    }
    ok & each_within(rest, hi)
}

fn each_within(xs: &[f32], hi: f32) -> bool
    ensures { result ≡ list_all (within hi) xs.now }
{
    xs.iter().all(|&x| is_within(x, hi))
}

// Whether each of the first four values lies in 0 to hi.
fn four_within(xs: &[f32], hi: f32) -> bool
    requires { 4 ≤ length xs.now }
    ensures { result ≡ list_all (within hi) (take 4 xs.now) }
{
    let lanes = f32x4::from_slice(xs);
    let above = f32x4::splat(0.0).simd_le(lanes).to_bitmask();
    let below = lanes.simd_le(f32x4::splat(hi)).to_bitmask();
    (above == 15) & (below == 15)
}
