// The six subbands and the bands' maxima.
ghost use Rattle.std.specs.Prelude.{◌≡◌};
ghost use Rattle.filter_sections.specs.Subbands.{subband_begin, subband_bands, band_to_subband, max_erle};

use aec3_common::ErleLimits;
use std::ops::Range;

// The bands at which the subbands begin.
const BEGINS: [usize; 6] = [1, 8, 16, 24, 32, 48];

// The bands that are summed in a subband, from begin on, below end: a value that may be copied, which a `Range` may not.
#[derive(Clone, Copy, Debug, PartialEq, Eq)]
pub struct SubbandBands {
    pub begin: usize,
    pub end: usize,
}

impl From<Range<usize>> for SubbandBands {
    ghost from_gives = { λ bands copied. (copied.begin ≡ bands.start) × (copied.end ≡ bands.end) };

    fn from(bands: Range<usize>) -> SubbandBands {
        SubbandBands {
            begin: bands.start,
            end: bands.end,
        }
    }
}

#[tactic(auto, unfolding(crate::specs::Subbands::subband_begin))]
fn subband_begin(subband: usize) -> usize
    ensures { result ≡ subband_begin subband }
{
    match BEGINS.get(subband) {
        Some(&begin) => begin,
        None => 65,
    }
}

// The bands that are summed in a subband; none where there is no such subband.
pub fn subband_bands(subband: usize) -> Range<usize>
    ensures { result ≡ subband_bands subband }
{
    subband_begin(subband)..subband_begin(subband.saturating_add(1))
}

// The subband that a band maps to: as many later ones as begin at or below it.
#[tactic(auto, unfolding(crate::specs::Subbands::band_to_subband))]
pub fn band_to_subband(band: usize) -> usize
    ensures { result ≡ band_to_subband band }
{
    BEGINS[1..].iter().filter(|&&begin| begin <= band).count()
}

// The greatest ERLE of a band.
#[tactic(auto, unfolding(crate::specs::Subbands::max_erle))]
pub fn max_erle(limits: ErleLimits, band: usize) -> f32
    ensures { result ≡ max_erle limits.max_l limits.max_h band }
{
    if band < 32 {
        limits.max_l
    } else {
        limits.max_h
    }
}
