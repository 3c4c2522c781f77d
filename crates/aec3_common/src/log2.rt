// Log2, by the bits of its input.
ghost use Rattle.std.specs.Prelude.{◌≡◌};
ghost use Rattle.aec3_common.specs.Answers.{numbered};
ghost use Rattle.aec3_common.specs.Log2.{approx_log2, log2_answer, rounded as Log2·rounded};

use crate::refusal::Refusal;
use encoding::bits_of;

// Log2 of a positive number, plus infinity included; of any other 7.
#[tactic(auto, unfolding(crate::specs::Log2::log2_answer))]
pub fn fast_approx_log2f(input: f32) -> Result<f32, Refusal>
    ensures { numbered result ≡ log2_answer input }
{
    if input > 0.0 {
        Ok(approx_log2(input))
    } else {
        Err(Refusal::BadLog2Input)
    }
}

// The same without the refusal, for a caller that knows its input to be positive. What it gives for another is no log2.
pub fn approx_log2(input: f32) -> f32
    ensures { result ≡ approx_log2 input }
{
    rounded(bits_of(input)) * 0.00000011920929 - 126.942695
}

// A whole number as the nearest binary32 number, ties to even. The kit makes it of two exact halves and one rounded sum.
pub fn rounded(n: u32) -> f32
    ensures { result ≡ Log2·rounded n }
{
    std::num::nearest_u32_to_f32(n)
}
