// The streams of an ERLE estimator.
ghost use Rattle.std.specs.Prelude.{◌≡◌};
ghost use Rattle.aec3_common.specs.Streams.{erle_of};

// The stream that is asked for, of the two that are lent: the compensated one only with onset detection on.
#[tactic(auto, unfolding(crate::specs::Streams::erle_of))]
pub fn erle<'a>(
    plain: &'a [f32],
    compensated: &'a [f32],
    onset_compensated: bool,
    onset_detection: bool,
) -> &'a [f32]
    ensures { result.now ≡ erle_of plain.now compensated.now onset_compensated onset_detection }
{
    if onset_compensated & onset_detection {
        compensated
    } else {
        plain
    }
}
