// Refusals by their numbers alone, for a caller that has any numbers, not only those of a `Refusal`.
ghost use Rattle.std.specs.Prelude.{◌≡◌};
ghost use Rattle.aec3_common.specs.Refusal.{lesser};

// The lesser of two refusals, where 0 is none.
#[tactic(auto, unfolding(crate::specs::Refusal::lesser))]
pub fn lesser(a: u32, b: u32) -> u32
    ensures { result ≡ lesser a b }
{
    match (a, b) {
        (0, _) => b,
        (_, 0) => a,
        _ => a.min(b),
    }
}
