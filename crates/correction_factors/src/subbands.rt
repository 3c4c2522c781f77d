// Subbands of a spectrum, and of what stands beside it band by band.
ghost use Rattle.std.specs.Prelude.{◌≡◌, length};
ghost use Rattle.correction_factors.specs.Factors.{of_subband, subband_sums};

use aec3_common::spectra::sum;
use filter_sections::subband_bands;
use std::array;

// The entries of a subband's bands.
pub(crate) fn in_subband<T: Copy>(bands: &[T], subband: usize) -> &[T]
    requires { length bands.now ≡ 65 }
    ensures { (d : T) → result.now ≡ of_subband d bands.now subband }
{
    &bands[subband_bands(subband)]
}

pub fn subband_sums(spectrum: &[f32]) -> [f32; 6]
    requires { length spectrum.now ≡ 65 }
    ensures { result ≡ subband_sums spectrum.now }
{
    array::from_fn(|subband| sum(in_subband(spectrum, subband)))
}
